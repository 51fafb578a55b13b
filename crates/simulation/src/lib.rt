// A run behind its questions: the plan within a caller's limit, and the words of all nets. An inner crate: its function asks its
// caller for what it needs.
#![tactic(auto)]

ghost use Rattle.std.specs.Prelude.{◌≡◌};
ghost use Rattle.method.specs.Areas.{areas};
ghost use Rattle.method.specs.WordLists.{words_in, lengths_of};
ghost use Rattle.circuit.specs.File.{inputs_of, gates_of};
ghost use Rattle.circuit.specs.Task.{task_in};
ghost use Rattle.simulation.specs.Simulated.{Ready, Simulated};

use circuit::{InputsAndGates, Task};
use limiting::{Planning, fill_within};
use method::{Tick, Words};

// Plans and evaluates a circuit that has passed the questions before 13. What is behind the last frame is 0; so is everything if
// there are too many frames, for any caller or for this one.
pub fn simulate(
    task: Task,
    limit: u16,
    nets: InputsAndGates,
    directory: &mut [u16],
    times: &mut [Tick],
    inertial: &mut [u16],
    fanins: &mut [u16],
    values: &mut [u64],
    words: Words,
) -> Planning
    requires { Ready (task_in task) (lengths_of (words_in words)) (areas directory.old times.old inertial.old fanins.old) values.old × (nets.inputs ≡ inputs_of task.file.now) × (nets.gates ≡ gates_of task.file.now) }
    ensures { Simulated (task_in task.entry) limit (words_in words.entry) (areas directory.old times.old inertial.old fanins.old) values.old result (areas directory.new times.new inertial.new fanins.new) values.new }
{
    match fill_within(task, limit, nets, directory, times, inertial, fanins) {
        Err(refusal) => {
            clearing::clear(values);
            Err(refusal)
        }
        Ok(totals) => {
            evaluation::evaluate(
                task,
                nets,
                totals.frames,
                directory,
                inertial,
                fanins,
                values,
                words,
            );
            Ok(totals)
        }
    }
}
