// Loads as plain numbers, a byte and two floats a net, and the charge call on them.
#![tactic(auto)]

ghost use Rattle.std.specs.Prelude.{◌≡◌};
ghost use Rattle.lists.specs.Outcome.{outcome};
ghost use Rattle.method.specs.WordLists.{words_in};
ghost use Rattle.circuit.specs.Task.{task_in};
ghost use Rattle.engine.specs.Areas.{areas};
ghost use Rattle.charge.specs.Charge.{on_paper, charge_of};
ghost use Rattle.charge_numbers.specs.Numbers.{loads_of, numbers_suit};

mod lending;
mod loads;

use charge::Charged;
use circuit::Task;
use lending::charge_first;
use loads::first_loads;
use method::{Tick, Words};

// A load for each net that a circuit can have, and one more.
const ROOM: usize = 161;

// Whether each byte says a case, 0 or 1, and there are two charges for each.
#[tactic(auto, unfolding(crate::specs::Numbers::numbers_suit))]
pub fn numbers_suit(cases: &[u8], charges: &[f64]) -> bool
    ensures { result ≡ numbers_suit cases.now charges.now }
{
    charges.len() == 2 * cases.len() && cases.iter().all(|case| *case < 2)
}

// The charge call with the loads that the numbers say, as many as there are cases. Of a list that is longer than any circuit's the
// first 161 are handed on, which is as much too long.
pub fn charge_on(
    task: Task,
    limit: u16,
    directory: &mut [u16],
    times: &mut [Tick],
    inertial: &mut [u16],
    fanins: &mut [u16],
    values: &mut [u64],
    words: Words,
    cases: &[u8],
    charges: &[f64],
    lane: u8,
) -> Charged
    ensures { outcome (on_paper result) (areas directory.new times.new inertial.new fanins.new values.new) ≡ charge_of (task_in task.entry) limit (words_in words.entry) (areas directory.old times.old inertial.old fanins.old values.old) (loads_of cases.now charges.now) lane }
{
    let count = cases.len().min(ROOM);
    charge_first(
        task,
        limit,
        directory,
        times,
        inertial,
        fanins,
        values,
        words,
        first_loads(cases, charges, count),
        count,
        lane,
    )
}
