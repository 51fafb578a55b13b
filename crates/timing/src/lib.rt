// For the benchmark alone, and no part of the product: evaluation by itself, on a plan that stands in the areas. Unlike a call it has a
// `requires`, which its caller has to keep.
#![tactic(auto)]

ghost use Rattle.std.specs.Prelude.{◌≡◌, length};
ghost use Rattle.lists.specs.Areas.{padded};
ghost use Rattle.method.specs.WordLists.{word_lists, lengths_of};
ghost use Rattle.circuit.specs.File.{inputs_of, gates_of};
ghost use Rattle.circuit.specs.Task.{task_of, all_packed_in};
ghost use Rattle.evaluation.specs.Steps.{Driven, Planned};

use circuit::{InputsAndGates, Task};
use method::Words;

pub fn mazh_evaluate(
    file: &[u8],
    counts: &[u8],
    changes: &[u32],
    inputs: u16,
    gates: u16,
    total: u16,
    directory: &[u16],
    inertial: &[u16],
    fanins: &[u16],
    values: &mut [u64],
    before: &[u64],
    after: &[u64],
)
    requires planned { Planned (task_of file.now counts.now changes.now) directory.now inertial.now fanins.now × (inputs ≡ inputs_of file.now) × (gates ≡ gates_of file.now) }
    requires driven { Driven (task_of file.now counts.now changes.now) (lengths_of (word_lists before.now after.now)) values.old total }
    ensures { values.new ≡ padded (length values.old) (all_packed_in (task_of file.now counts.now changes.now) (word_lists before.now after.now)) }
{
    evaluation::evaluate(
        Task {
            file,
            counts,
            changes,
        },
        InputsAndGates { inputs, gates },
        total,
        directory,
        inertial,
        fanins,
        values,
        Words { before, after },
    );
}
