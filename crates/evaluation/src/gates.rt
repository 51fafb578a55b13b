// The gates, one after the other: each net's words from those of the nets before it.
ghost use Rattle.std.specs.Prelude.{◌≡◌, ◌∷◌, ℕ, ◌+◌, ◌*◌, ◌^◌, ◌<◌, ◌≤◌, length, take, get_or};
ghost use Rattle.method.specs.Words.{lanes};
ghost use Rattle.std.proofs.lemmas.List.Edits.{sets};
ghost use Rattle.method.specs.Kinds.{most_fanins};
ghost use Rattle.method.specs.WordLists.{WordLists, word_lists, lengths_of};
ghost use Rattle.circuit.specs.File.{inputs_of, gates_of, fanin_at};
ghost use Rattle.circuit.specs.Task.{task_in};
ghost use Rattle.method.specs.Layout.{first_frame, frame_count};
ghost use Rattle.evaluation.specs.Steps.{Bases, Fed, Holds, Planned, Raw, Ready, Roomy, after_words, bases_of, gate_words, input_words, raw_words};

use crate::rows::{pair_rows, rule_of, wide_rows};
use circuit::{GateRecord, InputsAndGates, Task};
use method::Net;

// Writes the words of each input, one input after the other: its before word, and its after words, as many as its count.
pub(crate) fn input_words(counts: &[u8], values: &mut [u64], before: &[u64], after: &[u64])
    requires { Fed counts.now (lengths_of (word_lists before.now after.now)) values.old }
    ensures written { take (length before.now + length after.now) values.new ≡ input_words counts.now (word_lists before.now after.now) (length before.now) }
    ensures before_fit { (i : ℕ) → get_or before.now i 0 < 2 ^ lanes }
    ensures after_fit { (k : ℕ) → get_or after.now k 0 < 2 ^ lanes }
{
    let mut start: usize = 0;
    for (i, word) in before.iter().enumerate() {
        let count = counts[i] as usize;
        one_input(values, i + start, *word, after, start, count);
        start += count;
    }
}

// Writes the words of an input from `first` on: its before word, and `count` after words, those from `start` on.
fn one_input(
    values: &mut [u64],
    first: usize,
    before: u64,
    after: &[u64],
    start: usize,
    count: usize,
)
    requires { (first + 1 + count ≤ length values.old) × (start + count ≤ length after.now) }
    ensures { values.new ≡ sets values.old first (before ∷ after_words after.now start count) }
{
    values[first] = before;
    let behind = first + 1;
    // No `copy_from_slice`: most counts are small, and a call of `memmove` makes the whole evaluation 5 % slower.
    for k in 0..count {
        values[behind + k] = after[start + k];
    }
}

// Writes the words of all gates behind those of the inputs. The change counts and times are there for the contract.
pub(crate) fn all_gates(
    task: Task,
    directory: &[u16],
    inertial: &[u16],
    fanins: &[u16],
    values: &mut [u64],
    nets: InputsAndGates,
)
    requires planned { Planned (task_in task) directory.now inertial.now fanins.now × (nets.inputs ≡ inputs_of task.file.now) × (nets.gates ≡ gates_of task.file.now) }
    requires roomy { Roomy (task_in task) values.old }
    ensures { (w : WordLists) → Holds (task_in task.entry) w nets.inputs values.old → Holds (task_in task.entry) w (nets.inputs + nets.gates) values.new }
{
    let mut at: usize = 0;
    for j in 0..nets.gates {
        let gate = circuit::gate_at(task.file, j);
        let net = Net(nets.inputs + j);
        gate_words(
            task.file, directory, inertial, fanins, values, net, gate, at,
        );
        at += entries_of(directory, net, gate);
    }
}

// How many fan-in entries the frames of a gate on this net have.
fn entries_of(directory: &[u16], net: Net, gate: GateRecord) -> usize
    requires { 2 * net.0 + 1 < length directory.now }
    ensures { result ≡ frame_count directory.now net.0 * gate.entries }
{
    directory[2 * (net.0 as usize) + 1] as usize * (gate.entries as usize)
}

// Writes the words of a gate on this net, whose fan-in rows start at `at`: the raw words, then the filter, in place. Without
// an inertial delay nothing is filtered.
fn gate_words(
    file: &[u8],
    directory: &[u16],
    inertial: &[u16],
    fanins: &[u16],
    values: &mut [u64],
    net: Net,
    gate: GateRecord,
    at: usize,
)
    requires { Ready file.now directory.now inertial.now fanins.now (length values.old) net.0 gate at }
    ensures { values.new ≡ sets values.old (first_frame directory.now net.0) (gate_words file.now directory.now inertial.now fanins.now net.0 gate at values.old) }
{
    let pair = 2 * (net.0 as usize);
    let first = directory[pair] as usize;
    let frames = directory[pair + 1] as usize;
    let end = first + frames;
    raw_words(file, directory, fanins, values, first, frames, gate, at);
    if gate.inertial == 0 {
        return;
    }
    words::filter(&mut values[first..end], &inertial[first..end]);
}

// Writes the raw words of a gate's frames from `first` on, whose fan-in rows start at `at`. Most gates have two fan-ins, and
// need no array.
fn raw_words(
    file: &[u8],
    directory: &[u16],
    fanins: &[u16],
    values: &mut [u64],
    first: usize,
    frames: usize,
    gate: GateRecord,
    at: usize,
)
    requires raw { Raw (length values.old) (bases_of file.now directory.now gate) fanins.now gate.kind at gate.entries first frames }
    requires entries_in_bounds { (gate.list + 2 * gate.entries ≤ length file.now) × ((e : ℕ) → e < gate.entries → 2 * fanin_at file.now gate.list e < length directory.now) }
    ensures { values.new ≡ sets values.old first (raw_words values.old (bases_of file.now directory.now gate) fanins.now gate.kind gate.entries at frames) }
{
    let kind = gate.kind;
    let rule = rule_of(kind);
    let list = gate.list;
    let entries = gate.entries;
    if entries == 2 {
        let x = base_of(file, directory, list, 0);
        let y = base_of(file, directory, list, 1);
        pair_rows(values, first, frames, x, y, fanins, at, rule);
        return;
    }
    let bases = bases_of(file, directory, list, entries);
    wide_rows(
        values,
        first,
        frames,
        &bases,
        fanins,
        at,
        entries as usize,
        rule,
    );
}

// Where the frames of each of a gate's fan-ins start, whose list has `entries` entries and starts at byte `list`.
fn bases_of(file: &[u8], directory: &[u16], list: u32, entries: u16) -> [usize; 8]
    requires { (entries ≤ most_fanins) × (list + 2 * entries ≤ length file.now) × ((e : ℕ) → e < entries → 2 * fanin_at file.now list e < length directory.now) }
    ensures { Bases file.now directory.now list entries result }
{
    let mut bases = [0usize; 8];
    for e in 0..entries {
        bases[e as usize] = base_of(file, directory, list, e);
    }
    bases
}

// Where the frames of the net start that entry e of a fan-in list names.
fn base_of(file: &[u8], directory: &[u16], list: u32, e: u16) -> usize
    requires { (list + 2 * e + 1 < length file.now) × (2 * fanin_at file.now list e < length directory.now) }
    ensures { result ≡ first_frame directory.now (fanin_at file.now list e) }
{
    let fanin = circuit::fanin_at(file, list, e);
    directory[2 * (fanin.0 as usize)] as usize
}
