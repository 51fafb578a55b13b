// Questions 13 and 22, without areas.
ghost use Rattle.std.specs.Prelude.{◌≡◌};
ghost use Rattle.method.specs.Refusals.{on_paper};
ghost use Rattle.circuit.specs.File.{inputs_of, gates_of};
ghost use Rattle.circuit.specs.Task.{task_in};
ghost use Rattle.counting.specs.Steps.{Asked};
ghost use Rattle.sizes.specs.Steps.{totals_within};

use circuit::{InputsAndGates, Task};
use limiting::{Planning, within_limit};
use method::Refusal;

// The totals of a circuit that has passed the questions before 13, or 13 or 22.
pub(crate) fn totals_within(task: Task, limit: u16, nets: InputsAndGates) -> Planning
    requires { Asked (task_in task) × (nets.inputs ≡ inputs_of task.file.now) × (nets.gates ≡ gates_of task.file.now) }
    ensures { on_paper result ≡ totals_within (task_in task.entry) limit }
{
    let totals = counting::count(task, nets).ok_or(Refusal::TooManyFrames)?;
    if !within_limit(limit, totals.frames) {
        return Err(Refusal::AboveLimit);
    }
    Ok(totals)
}
