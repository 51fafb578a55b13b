// The inertial indices and the fan-in indices of one gate, from its times and those of its fan-ins.
ghost use Rattle.std.specs.Prelude.{◌≡◌, ◌+◌, ◌-◌, ◌*◌, ◌≤◌, ◌<◌, length};
ghost use mathlib.Core.List.{[], ◌∷◌, map, flat_map};
ghost use Rattle.std.proofs.lemmas.List.Edits.{sets};
ghost use Rattle.method.specs.Kinds.{most_fanins};
ghost use Rattle.method.specs.Times.{gate_times};
ghost use Rattle.method.specs.Indices.{last_frame, fanin_index, inertial_indices};
ghost use Rattle.method.specs.Frames.{fanin_row};
ghost use Rattle.circuit.specs.Limits.{most_delay};
ghost use Rattle.gathering.specs.Steps.{Fed, Span, spans};
ghost use Rattle.framing.specs.Steps.{Shown, column};

use circuit::GateRecord;
use gathering::times_of;
use method::{Frame, Tick, Time};

// Writes the inertial index of each of a gate's own times, from `first` on; `reach` is the inertial delay. The end of what
// is within reach never moves back, so each search goes on where the one before ended.
pub(crate) fn inertial_row(own: &[Tick], reach: Tick, inertial: &mut [u16], first: usize)
    requires span { Span own.now }
    requires reach_le_most_delay { (reach ≤ most_delay) × (first + length own.now ≤ length inertial.old) }
    ensures { inertial.new ≡ sets inertial.old first (inertial_indices reach own.now) }
{
    let mut later = 0;
    // Over the range, since a loop over the times themselves takes more jumps.
    for k in 0..own.len() {
        later = slices::first_above(own, later, own[k] + reach);
        inertial[first + k] = (later - (k + 1)) as u16;
    }
}

// Writes the fan-in indices of all frames of a gate, whose own times these are, from `first` on: a row a frame. Most gates have two
// fan-ins, which are walked side by side.
pub(crate) fn index_rows(
    file: &[u8],
    gate: GateRecord,
    directory: &[u16],
    times: &[Tick],
    own: &[Tick],
    fanins: &mut [u16],
    first: usize,
)
    requires fed { Fed file.now gate directory.now times.now }
    requires span { Span own.now × (own.now ≡ gate_times gate.delay (spans file.now gate.list gate.entries directory.now times.now)) }
    requires entries_in_bounds { first + length own.now * gate.entries ≤ length fanins.old }
    ensures { fanins.new ≡ sets fanins.old first (flat_map (fanin_row gate.delay (spans file.now gate.list gate.entries directory.now times.now)) own.now) }
{
    let delay = gate.delay;
    let list = gate.list;
    if gate.entries == 2 {
        let one = times_of(directory, times, circuit::fanin_at(file, list, 0));
        let other = times_of(directory, times, circuit::fanin_at(file, list, 1));
        index_pairs(one, other, delay, own, fanins, first);
        return;
    }
    index_columns(file, gate, directory, times, own, fanins, first);
}

// The same for two fan-ins with these times.
fn index_pairs(
    one: &[Tick],
    other: &[Tick],
    delay: Tick,
    own: &[Tick],
    fanins: &mut [u16],
    first: usize,
)
    requires span { Span one.now × Span other.now × (delay ≤ most_delay) }
    requires span_2 { Span own.now × Shown delay one.now own.now × Shown delay other.now own.now }
    requires own_in_bounds { first + length own.now * 2 ≤ length fanins.old }
    ensures { fanins.new ≡ sets fanins.old first (flat_map (fanin_row delay (one.now ∷ other.now ∷ [])) own.now) }
{
    let mut x = 0;
    let mut y = 0;
    for (k, t) in own.iter().enumerate() {
        x = begun_by(one, delay, x, Time(*t));
        y = begun_by(other, delay, y, Time(*t));
        let place = first + 2 * k;
        fanins[place] = Frame(x as u16).0;
        fanins[place + 1] = Frame(y as u16).0;
    }
}

// The same for any number of fan-ins, one after the other.
fn index_columns(
    file: &[u8],
    gate: GateRecord,
    directory: &[u16],
    times: &[Tick],
    own: &[Tick],
    fanins: &mut [u16],
    first: usize,
)
    requires fed { Fed file.now gate directory.now times.now }
    requires span { Span own.now × (own.now ≡ gate_times gate.delay (spans file.now gate.list gate.entries directory.now times.now)) }
    requires entries_in_bounds { first + length own.now * gate.entries ≤ length fanins.old }
    ensures { fanins.new ≡ sets fanins.old first (flat_map (fanin_row gate.delay (spans file.now gate.list gate.entries directory.now times.now)) own.now) }
{
    let delay = gate.delay;
    let list = gate.list;
    let entries = gate.entries;
    for e in 0..entries {
        let fanin = times_of(directory, times, circuit::fanin_at(file, list, e));
        index_column(
            fanin,
            delay,
            own,
            fanins,
            first + e as usize,
            entries as usize,
        );
    }
}

// Writes the index of one fan-in at each of a gate's own times, one every `width` places, from `at` on. Each later time of
// the fan-in plus the delay is an own time, so the fan-in comes at most one frame on from one to the next.
fn index_column(
    fanin: &[Tick],
    delay: Tick,
    own: &[Tick],
    fanins: &mut [u16],
    at: usize,
    width: usize,
)
    requires span { Span fanin.now × (delay ≤ most_delay) }
    requires span_2 { Span own.now × Shown delay fanin.now own.now }
    requires width_le_most_fanins { (width ≤ most_fanins) × (at + length own.now * width < length fanins.old + width) }
    ensures { fanins.new ≡ column fanins.old at width (map (fanin_index delay fanin.now) own.now) }
{
    let mut begun = 0;
    for (k, t) in own.iter().enumerate() {
        begun = begun_by(fanin, delay, begun, Time(*t));
        fanins[at + k * width] = Frame(begun as u16).0;
    }
}

// How many frames of the fan-in behind frame 0 have begun at this time less the delay, which is also the number of the last
// that has: `from`, or one more. Written so that the choice needs no jump, which would often be guessed wrong.
fn begun_by(fanin: &[Tick], delay: Tick, from: usize, time: Time) -> usize
    requires span { Span fanin.now × (delay ≤ most_delay) }
    requires from_bound { (from ≤ last_frame fanin.now (time.0 - delay)) × (last_frame fanin.now (time.0 - delay) ≤ from + 1) }
    ensures { result ≡ last_frame fanin.now (time.0 - delay) }
{
    let next = behind(from, fanin.len());
    if fanin[next] + delay <= time.0 {
        next
    } else {
        from
    }
}

// The frame behind this one, or this one where it is the last. The library's `min` of the two would be compiled with a jump here.
fn behind(frame: usize, frames: usize) -> usize
    requires { frame < frames }
    ensures { (frame + 1 < frames → result ≡ frame + 1) × (frames ≤ frame + 1 → result ≡ frame) × (result < frames) }
{
    if frame + 1 < frames { frame + 1 } else { frame }
}
