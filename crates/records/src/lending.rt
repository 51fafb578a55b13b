// Mark with records that come by value, in an array, and are lent from here.
ghost use Rattle.std.specs.Prelude.{◌≡◌, ◌≤◌, take};
ghost use Rattle.lists.specs.Outcome.{outcome};
ghost use Rattle.method.specs.WordLists.{words_in};
ghost use Rattle.circuit.specs.Task.{task_in};
ghost use Rattle.engine.specs.Areas.{areas};
ghost use Rattle.expectations.specs.Verdict.{on_paper};
ghost use Rattle.marking.specs.Mark.{mark_of};
ghost use Rattle.records.specs.Records.{most_records};

use crate::MOST_RECORDS;
use circuit::Task;
use expectations::{Expectation, Marking};
use method::{Tick, Words};

// Mark with the first records of a list.
pub fn mark_first(
    task: Task,
    limit: u16,
    directory: &mut [u16],
    times: &mut [Tick],
    inertial: &mut [u16],
    fanins: &mut [u16],
    values: &mut [u64],
    words: Words,
    list: [Expectation; MOST_RECORDS],
    count: usize,
) -> Marking
    requires { count ≤ most_records }
    ensures { outcome (on_paper result) (areas directory.new times.new inertial.new fanins.new values.new) ≡ mark_of (task_in task.entry) limit (words_in words.entry) (areas directory.old times.old inertial.old fanins.old values.old) (take count list) }
{
    marking::mark(
        task,
        limit,
        directory,
        times,
        inertial,
        fanins,
        values,
        words,
        &list[..count],
    )
}
