// The charge call with loads that come by value, in an array, and are lent from here.
ghost use Rattle.std.specs.Prelude.{◌≡◌, ◌≤◌, take};
ghost use Rattle.lists.specs.Outcome.{outcome};
ghost use Rattle.method.specs.WordLists.{words_in};
ghost use Rattle.circuit.specs.Task.{task_in};
ghost use Rattle.engine.specs.Areas.{areas};
ghost use Rattle.charge.specs.Charge.{on_paper, charge_of};
ghost use Rattle.charge_numbers.specs.Steps.{room};

use crate::ROOM;
use charge::{Charged, Load};
use circuit::Task;
use method::{Tick, Words};

// The charge call with the first loads of a list.
pub(crate) fn charge_first(
    task: Task,
    limit: u16,
    directory: &mut [u16],
    times: &mut [Tick],
    inertial: &mut [u16],
    fanins: &mut [u16],
    values: &mut [u64],
    words: Words,
    list: [Load; ROOM],
    count: usize,
    lane: u8,
) -> Charged
    requires { count ≤ room }
    ensures { outcome (on_paper result) (areas directory.new times.new inertial.new fanins.new values.new) ≡ charge_of (task_in task.entry) limit (words_in words.entry) (areas directory.old times.old inertial.old fanins.old values.old) (take count list) lane }
{
    charge::charge(
        task,
        limit,
        directory,
        times,
        inertial,
        fanins,
        values,
        words,
        &list[..count],
        lane,
    )
}
