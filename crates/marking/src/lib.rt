// Mark: a circuit is run, and the run is held against a list of expectations.
#![tactic(auto)]

ghost use Rattle.std.specs.Prelude.{◌≡◌};
ghost use Rattle.lists.specs.Outcome.{outcome};
ghost use Rattle.method.specs.WordLists.{words_in};
ghost use Rattle.circuit.specs.Task.{task_in};
ghost use Rattle.engine.specs.Areas.{areas};
ghost use Rattle.expectations.specs.Verdict.{on_paper};
ghost use Rattle.marking.specs.Mark.{mark_of};

mod asking;

use asking::run_asked;
use circuit::Task;
use expectations::needs::nets_needed;
use expectations::search::first_unmet;
pub use expectations::{Expectation, Marking, Unmet};
use method::{Tick, Words};

// Runs the circuit of the file as Run does, and marks the run: questions 1 to 11, then 20, 12, 13 and 22. The areas are
// left as Run leaves them, whatever the verdict.
#[tactic(auto, using(crate::proofs::Marked::mark_by, crate::proofs::Marked::unless_accepted, crate::proofs::Marked::unless_refused), unfolding(expectations::specs::Verdict::on_paper))]
pub fn mark(
    task: Task,
    limit: u16,
    directory: &mut [u16],
    times: &mut [Tick],
    inertial: &mut [u16],
    fanins: &mut [u16],
    values: &mut [u64],
    words: Words,
    expectations: &[Expectation],
) -> Marking
    ensures { outcome (on_paper result) (areas directory.new times.new inertial.new fanins.new values.new) ≡ mark_of (task_in task.entry) limit (words_in words.entry) (areas directory.old times.old inertial.old fanins.old values.old) expectations.now }
{
    // the list is walked first: so the areas are lent to be written once, for all questions and the run
    let needed = nets_needed(expectations);
    run_asked(
        task, limit, directory, times, inertial, fanins, values, words, needed,
    )?;
    Ok(first_unmet(directory, times, values, expectations))
}
