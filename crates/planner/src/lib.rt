// Plan: the frames of every net of a circuit, whose inputs change at given times, laid out in the caller's areas.
#![tactic(auto)]

ghost use Rattle.std.specs.Prelude.{◌≡◌};
ghost use Rattle.lists.specs.Outcome.{outcome};
ghost use Rattle.method.specs.Areas.{areas};
ghost use Rattle.method.specs.Refusals.{on_paper};
ghost use Rattle.circuit.specs.Task.{task_in};
ghost use Rattle.planner.specs.Questions.{areas_suit};
ghost use Rattle.planner.specs.Plan.{plan_of};

use circuit::Task;
pub use limiting::Planning;
use limiting::fill_within;
use method::{Refusal, Tick};

const DIRECTORY_LENGTH: usize = 320;

// The length of the times, and of the inertial indices.
const TIMES_LENGTH: usize = 2048;

const FANINS_LENGTH: usize = 16384;

// Plans the circuit of the file, whose inputs have these counts of changes and these change times, inputs in order, with no
// more frames than the caller's limit: questions 1 to 10, then 20, 13 and 22.
pub fn plan(
    task: Task,
    limit: u16,
    directory: &mut [u16],
    times: &mut [Tick],
    inertial: &mut [u16],
    fanins: &mut [u16],
) -> Planning
    ensures { outcome (on_paper result) (areas directory.new times.new inertial.new fanins.new) ≡ plan_of (task_in task.entry) limit (areas directory.old times.old inertial.old fanins.old) }
{
    let read = circuit::read(task.file)?;
    if !areas_suit(directory, times, inertial, fanins) {
        return Err(Refusal::AreaLengths);
    }
    if !stimulus::changes_suit(read.inputs, task.counts, task.changes) {
        return Err(Refusal::ChangeTimes);
    }
    fill_within(task, limit, read, directory, times, inertial, fanins)
}

// Question 10, of Plan's four areas.
pub fn areas_suit(directory: &[u16], times: &[Tick], inertial: &[u16], fanins: &[u16]) -> bool
    ensures { result ≡ areas_suit (areas directory.now times.now inertial.now fanins.now) }
{
    if directory.len() != DIRECTORY_LENGTH {
        return false;
    }
    if times.len() != TIMES_LENGTH {
        return false;
    }
    if inertial.len() != TIMES_LENGTH {
        return false;
    }
    fanins.len() == FANINS_LENGTH
}
