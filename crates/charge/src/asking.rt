// What the charge call asks, and the run that follows.
ghost use Rattle.std.specs.Prelude.{◌≡◌, eqb, ltb};
ghost use Rattle.lists.specs.Outcome.{outcome};
ghost use Rattle.method.specs.Refusals.{on_paper};
ghost use Rattle.method.specs.Words.{lanes};
ghost use Rattle.method.specs.WordLists.{words_in};
ghost use Rattle.circuit.specs.Task.{task_in, nets_in};
ghost use Rattle.engine.specs.Areas.{areas};
ghost use Rattle.charge.specs.Steps.{ran_of};

use circuit::Task;
use limiting::Planning;
use method::{Refusal, Tick, Words};

const LAST_LANE: u8 = 63;

// Questions 1 to 11 and 20, then 16, then 21, whether the list of loads suits for as many nets, then Run with 13 and 22.
pub(crate) fn run_asked(
    task: Task,
    limit: u16,
    directory: &mut [u16],
    times: &mut [Tick],
    inertial: &mut [u16],
    fanins: &mut [u16],
    values: &mut [u64],
    words: Words,
    lane: u8,
    loaded: u32,
) -> Planning
    ensures { outcome (on_paper result) (areas directory.new times.new inertial.new fanins.new values.new) ≡ ran_of (task_in task.entry) limit (words_in words.entry) (areas directory.old times.old inertial.old fanins.old values.old) (ltb lane lanes) (eqb loaded (nets_in (task_in task.entry))) }
{
    let read = engine::questions(task, directory, times, inertial, fanins, values, words)?;
    if LAST_LANE < lane {
        return Err(Refusal::NoLane);
    }
    if read.inputs as u32 + read.gates as u32 != loaded {
        return Err(Refusal::Loads);
    }
    engine::run(
        task, limit, directory, times, inertial, fanins, values, words,
    )
}
