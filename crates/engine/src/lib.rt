// Run: a circuit simulated in 64 lanes at once.
#![tactic(auto)]

ghost use Rattle.std.specs.Prelude.{◌≡◌};
ghost use Rattle.lists.specs.Outcome.{outcome};
ghost use Rattle.method.specs.Refusals.{on_paper};
ghost use Rattle.method.specs.WordLists.{words_in, lengths_of};
ghost use Rattle.circuit.specs.Task.{task_in};
ghost use Rattle.engine.specs.Areas.{areas};
ghost use Rattle.engine.specs.Questions.{questions_of};
ghost use Rattle.engine.specs.Run.{run_of};

mod own;

use circuit::{Reading, Task};
use method::{Tick, Words};
use own::ask_own;
use planner::Planning;
use simulation::simulate;

// Runs the circuit of the file, whose inputs have these counts of changes and these change times, with a before word for each
// input and an after word for each change, inputs in order, and with no more frames than the caller's limit: questions 1 to 11,
// then 20, 13 and 22. It answers what Plan does.
pub fn run(
    task: Task,
    limit: u16,
    directory: &mut [u16],
    times: &mut [Tick],
    inertial: &mut [u16],
    fanins: &mut [u16],
    values: &mut [u64],
    words: Words,
) -> Planning
    ensures { outcome (on_paper result) (areas directory.new times.new inertial.new fanins.new values.new) ≡ run_of (task_in task.entry) limit (words_in words.entry) (areas directory.old times.old inertial.old fanins.old values.old) }
{
    let read = questions(task, directory, times, inertial, fanins, values, words)?;
    simulate(
        task, limit, read, directory, times, inertial, fanins, values, words,
    )
}

// What Run asks before 13 and 22, for calls that ask more before they run. It answers what the reader does.
pub fn questions(
    task: Task,
    directory: &[u16],
    times: &[Tick],
    inertial: &[u16],
    fanins: &[u16],
    values: &[u64],
    words: Words,
) -> Reading
    ensures { on_paper result ≡ questions_of (task_in task.entry) (lengths_of (words_in words.entry)) (areas directory.now times.now inertial.now fanins.now values.now) }
{
    let read = circuit::read(task.file)?;
    ask_own(
        read.inputs,
        task.counts,
        task.changes,
        directory,
        times,
        inertial,
        fanins,
        values,
        words,
    )?;
    Ok(read)
}
