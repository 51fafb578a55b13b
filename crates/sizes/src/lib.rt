// Size, which answers a plan's totals with no area lent, and the fitted Run, which takes areas of just these sizes.
#![tactic(auto)]

ghost use Rattle.std.specs.Prelude.{◌≡◌};
ghost use Rattle.lists.specs.Outcome.{outcome};
ghost use Rattle.method.specs.Refusals.{on_paper};
ghost use Rattle.method.specs.WordLists.{words_in};
ghost use Rattle.circuit.specs.Task.{task_in};
ghost use Rattle.engine.specs.Areas.{areas};
ghost use Rattle.sizes.specs.Sizes.{size_of};
ghost use Rattle.sizes.specs.Fitted.{fitted_of};

mod fitting;
mod totals;

use circuit::Task;
use fitting::questions;
pub use limiting::Planning;
use method::{Refusal, Tick, Words};
use simulation::simulate;
use totals::totals_within;

// The totals of the circuit of the file, whose inputs have these counts of changes and these change times, inputs in order, within
// the caller's limit: questions 1 to 9, then 20, 13 and 22. It takes 11 kilobytes of stack.
pub fn size(task: Task, limit: u16) -> Planning
    ensures { on_paper result ≡ size_of (task_in task.entry) limit }
{
    let read = circuit::read(task.file)?;
    if !stimulus::changes_suit(read.inputs, task.counts, task.changes) {
        return Err(Refusal::ChangeTimes);
    }
    totals_within(task, limit, read)
}

// Run in areas that just fit the circuit: questions 1 to 9, then 11, 20, 13, 22 and 10. No refusal writes anything, so the totals
// are counted before the areas are filled.
pub fn run_fitted(
    task: Task,
    limit: u16,
    directory: &mut [u16],
    times: &mut [Tick],
    inertial: &mut [u16],
    fanins: &mut [u16],
    values: &mut [u64],
    words: Words,
) -> Planning
    ensures { outcome (on_paper result) (areas directory.new times.new inertial.new fanins.new values.new) ≡ fitted_of (task_in task.entry) limit (words_in words.entry) (areas directory.old times.old inertial.old fanins.old values.old) }
{
    let read = questions(
        task, limit, directory, times, inertial, fanins, values, words,
    )?;
    simulate(
        task, limit, read, directory, times, inertial, fanins, values, words,
    )
}
