// The charge call: a circuit is run, and the charge that its kept changes draw in a lane is added up.
#![tactic(auto)]

ghost use Rattle.std.specs.Prelude.{◌≡◌};
ghost use Rattle.lists.specs.Outcome.{outcome};
ghost use Rattle.method.specs.WordLists.{words_in};
ghost use Rattle.circuit.specs.Task.{task_in};
ghost use Rattle.engine.specs.Areas.{areas};
ghost use Rattle.charge.specs.Charge.{on_paper, charge_of};

mod asking;

use asking::run_asked;
pub use charge_loads::Load;
use charge_loads::drawing::charge_of_nets;
use charge_loads::listing::nets_loaded;
use circuit::Task;
use method::{Refusal, Tick, Totals, Words};

// Run's totals, and the charge that the changes draw.
#[derive(Clone, Copy)]
pub struct Drawn {
    pub totals: Totals,
    pub charge: f64,
}

// What the charge call answers, or the first "no".
pub type Charged = Result<Drawn, Refusal>;

// Runs the circuit of the file as Run does, and adds up the charge that the lane's kept changes draw, nets in order, frames in
// order: questions 1 to 11, then 20, 16, 21, 13 and 22. The areas are left as Run leaves them.
pub fn charge(
    task: Task,
    limit: u16,
    directory: &mut [u16],
    times: &mut [Tick],
    inertial: &mut [u16],
    fanins: &mut [u16],
    values: &mut [u64],
    words: Words,
    loads: &[Load],
    lane: u8,
) -> Charged
    ensures { outcome (on_paper result) (areas directory.new times.new inertial.new fanins.new values.new) ≡ charge_of (task_in task.entry) limit (words_in words.entry) (areas directory.old times.old inertial.old fanins.old values.old) loads.now lane }
{
    // the list is walked first: so the areas are lent to be written once, for all questions and the run
    let loaded = nets_loaded(loads);
    let totals = run_asked(
        task, limit, directory, times, inertial, fanins, values, words, lane, loaded,
    )?;
    let charge = charge_of_nets(directory, values, lane, loads);
    Ok(Drawn { totals, charge })
}
