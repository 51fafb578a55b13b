// The words of all nets, from a plan in the areas. An inner crate: its function asks its caller for what it needs.
#![tactic(auto)]

ghost use Rattle.std.specs.Prelude.{◌≡◌, length};
ghost use Rattle.lists.specs.Areas.{padded};
ghost use Rattle.method.specs.WordLists.{words_in, lengths_of};
ghost use Rattle.circuit.specs.File.{inputs_of, gates_of};
ghost use Rattle.circuit.specs.Task.{task_in, all_packed_in};
ghost use Rattle.evaluation.specs.Steps.{Driven, Planned};

mod gates;
mod rows;

use circuit::{InputsAndGates, Task};
use gates::{all_gates, input_words};
use method::Words;

// Writes the words of all nets from their plan, which has `total` frames, and the words of the inputs. What is behind the
// last frame is 0. The change times are there for the contract: the plan was made from them.
pub fn evaluate(
    task: Task,
    nets: InputsAndGates,
    total: u16,
    directory: &[u16],
    inertial: &[u16],
    fanins: &[u16],
    values: &mut [u64],
    words: Words,
)
    requires planned { Planned (task_in task) directory.now inertial.now fanins.now × (nets.inputs ≡ inputs_of task.file.now) × (nets.gates ≡ gates_of task.file.now) }
    requires driven { Driven (task_in task) (lengths_of (words_in words)) values.old total }
    ensures { values.new ≡ padded (length values.old) (all_packed_in (task_in task.entry) (words_in words.entry)) }
{
    let frames = total as usize;
    input_words(task.counts, values, words.before, words.after);
    all_gates(task, directory, inertial, fanins, values, nets);
    let end = values.len();
    clearing::clear(&mut values[frames..end]);
}
