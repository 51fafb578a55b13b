// The frames of every net laid out within a caller's limit: questions 13 and 22, the last of every call that plans. An inner
// crate: `fill_within` asks its caller for what it needs.
#![tactic(auto)]

ghost use Rattle.std.specs.Prelude.{◌≡◌};
ghost use Rattle.lists.specs.Outcome.{outcome};
ghost use Rattle.method.specs.Areas.{areas};
ghost use Rattle.method.specs.Refusals.{on_paper};
ghost use Rattle.method.specs.Sums.{within_limit};
ghost use Rattle.circuit.specs.File.{inputs_of, gates_of};
ghost use Rattle.circuit.specs.Task.{task_in};
ghost use Rattle.layout.specs.Steps.{Given};
ghost use Rattle.limiting.specs.Planned.{within_of};

use circuit::{InputsAndGates, Task};
use method::{Refusal, Tick, Totals};
use slices::is_between;

// No limit may be above this.
const MOST_TOTAL_FRAMES: u16 = 2048;

// What planning answers: the totals, or the first "no".
pub type Planning = Result<Totals, Refusal>;

// Fills the areas with the frames of all nets, or, where there are too many, for any caller or for this one, with zeros. 22
// comes after 13, so the limit is held against the total once all gates are planned.
pub fn fill_within(
    task: Task,
    limit: u16,
    nets: InputsAndGates,
    directory: &mut [u16],
    times: &mut [Tick],
    inertial: &mut [u16],
    fanins: &mut [u16],
) -> Planning
    requires { Given (task_in task) (areas directory.old times.old inertial.old fanins.old) × (nets.inputs ≡ inputs_of task.file.now) × (nets.gates ≡ gates_of task.file.now) }
    ensures { outcome (on_paper result) (areas directory.new times.new inertial.new fanins.new) ≡ within_of (task_in task.entry) limit (areas directory.old times.old inertial.old fanins.old) }
{
    let totals = layout::fill(task, nets, directory, times, inertial, fanins).ok_or(
        Refusal::TooManyFrames,
    )?;
    if !within_limit(limit, totals.frames) {
        clearing::clear_plan(directory, times, inertial, fanins);
        return Err(Refusal::AboveLimit);
    }
    Ok(totals)
}

// Question 22, by the frame total.
pub fn within_limit(limit: u16, total: u16) -> bool
    ensures { result ≡ within_limit limit total }
{
    if !is_between(1, MOST_TOTAL_FRAMES, limit) {
        return false;
    }
    total <= limit
}
