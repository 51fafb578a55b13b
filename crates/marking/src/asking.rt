// What Mark asks, and the run that follows.
ghost use Rattle.std.specs.Prelude.{◌≡◌, leb};
ghost use Rattle.engine.specs.Areas.{areas};
ghost use Rattle.method.specs.Refusals.{first_of};
ghost use Rattle.method.specs.WordLists.{words_in};
ghost use Rattle.circuit.specs.Task.{task_in, nets_in};
ghost use Rattle.marking.specs.Steps.{asked, asked_of};

use circuit::Task;
use method::{Refusal, Tick, Words};

// Questions 1 to 11 and 20, then 12, whether there are as many nets as the list needs, then Run with 13 and 22.
pub(crate) fn run_asked(
    task: Task,
    limit: u16,
    directory: &mut [u16],
    times: &mut [Tick],
    inertial: &mut [u16],
    fanins: &mut [u16],
    values: &mut [u64],
    words: Words,
    needed: u32,
) -> Result<(), Refusal>
    ensures { asked (first_of result) (areas directory.new times.new inertial.new fanins.new values.new) ≡ asked_of (task_in task.entry) limit (words_in words.entry) (areas directory.old times.old inertial.old fanins.old values.old) (leb needed (nets_in (task_in task.entry))) }
{
    let read = engine::questions(task, directory, times, inertial, fanins, values, words)?;
    if (read.inputs as u32 + read.gates as u32) < needed {
        return Err(Refusal::Expectations);
    }
    engine::run(
        task, limit, directory, times, inertial, fanins, values, words,
    )?;
    Ok(())
}
