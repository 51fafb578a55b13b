// The frames of every net of a circuit, laid out in areas. An inner crate: its functions ask their caller for what they need.
#![tactic(auto)]

ghost use Rattle.std.specs.Prelude.{◌≡◌};
ghost use Rattle.circuit.specs.File.{inputs_of, gates_of};
ghost use Rattle.circuit.specs.Task.{task_in};
ghost use Rattle.method.specs.Areas.{areas};
ghost use Rattle.layout.specs.Steps.{Given, Filled};

mod gates;
mod inputs;

use circuit::{InputsAndGates, Task};
use gates::add_gates;
pub use gates::{GATHERED_LENGTH, time_gate};
pub use inputs::add_inputs;
use method::{Tick, Totals};

// A gate has at most this many fan-in entries.
const MOST_FANINS: usize = 8;

// Fills the areas with the frames of all nets, and answers their totals; if there are too many frames, there are none, and the
// areas are filled with zeros. They are cleared first, since what is behind the last frame has to be 0 and a gate is stored
// behind those before it.
pub fn fill(
    task: Task,
    nets: InputsAndGates,
    directory: &mut [u16],
    times: &mut [Tick],
    inertial: &mut [u16],
    fanins: &mut [u16],
) -> Option<Totals>
    requires { Given (task_in task) (areas directory.old times.old inertial.old fanins.old) × (nets.inputs ≡ inputs_of task.file.now) × (nets.gates ≡ gates_of task.file.now) }
    ensures { Filled (task_in task.entry) (areas directory.old times.old inertial.old fanins.old) (areas directory.new times.new inertial.new fanins.new) result }
{
    clearing::clear_plan(directory, times, inertial, fanins);
    let start = add_inputs(task.counts, task.changes, directory, times);
    let Some(totals) = add_gates(task, nets, directory, times, inertial, fanins, start) else {
        clearing::clear_plan(directory, times, inertial, fanins);
        return None;
    };
    Some(totals)
}
