// The times of one gate, gathered from the times of its fan-ins. An inner crate: its functions ask their caller for what they
// need.
#![tactic(auto)]

ghost use Rattle.std.specs.Prelude.{◌≡◌, ℕ, ◌+◌, ◌-◌, ◌*◌, ◌≤◌, ◌<◌, true, cond, [], ◌∷◌, ◌++◌, length, get_or, take, drop, leb};
ghost use Rattle.lists.specs.Front.{leading};
ghost use Rattle.method.specs.Kinds.{most_fanins};
ghost use Rattle.method.specs.Times.{gate_times, start_and_rise};
ghost use Rattle.circuit.specs.Limits.{most_delay, most_time};
ghost use Rattle.method.specs.Limits.{most_net_frames};
ghost use Rattle.method.specs.Layout.{part_of};
ghost use Rattle.gathering.specs.Steps.{Added, Fed, Inserted, Put, Span, into, plus, spans};

use circuit::GateRecord;
use method::{Net, Tick, Time};

// Puts 0, and each later time of each fan-in plus the delay, at the front of `gathered`, rising, each once; how many.
// Most gates have two fan-ins, and their times are merged.
pub fn gate_times(
    file: &[u8],
    gate: GateRecord,
    directory: &[u16],
    times: &[Tick],
    gathered: &mut [Tick],
) -> usize
    requires fed { Fed file.now gate directory.now times.now }
    requires most_net_frames_in_bounds { 1 + most_fanins * most_net_frames < length gathered.old }
    ensures { Put gathered.new (gate_times gate.delay (spans file.now gate.list gate.entries directory.now times.now)) (1 + most_fanins * most_net_frames) result }
{
    let delay = gate.delay;
    let list = gate.list;
    if gate.entries == 2 {
        let one = times_of(directory, times, circuit::fanin_at(file, list, 0));
        let other = times_of(directory, times, circuit::fanin_at(file, list, 1));
        return merge_times(one, other, delay, gathered);
    }
    gather_times(file, gate, directory, times, gathered)
}

// The same for any number of fan-ins, one after the other.
fn gather_times(
    file: &[u8],
    gate: GateRecord,
    directory: &[u16],
    times: &[Tick],
    gathered: &mut [Tick],
) -> usize
    requires fed { Fed file.now gate directory.now times.now }
    requires most_net_frames_in_bounds { 1 + most_fanins * most_net_frames < length gathered.old }
    ensures { Put gathered.new (gate_times gate.delay (spans file.now gate.list gate.entries directory.now times.now)) (1 + most_fanins * most_net_frames) result }
{
    let delay = gate.delay;
    let list = gate.list;
    let entries = gate.entries;
    gathered[0] = 0;
    let mut count = 1;
    for e in 0..entries {
        let fanin = times_of(directory, times, circuit::fanin_at(file, list, e));
        count = add_times(fanin, delay, gathered, count);
    }
    count
}

// The same for two fan-ins with these times: at each turn the earlier of the two next ones, or both where they are the same.
fn merge_times(one: &[Tick], other: &[Tick], delay: Tick, gathered: &mut [Tick]) -> usize
    requires span { Span one.now × Span other.now × (delay ≤ most_delay) }
    requires other_in_bounds { length one.now + length other.now < length gathered.old }
    ensures { Put gathered.new (gate_times delay (one.now ∷ other.now ∷ [])) (length one.now + length other.now) result }
{
    gathered[0] = 0;
    let mut n = 1;
    let mut i = 1;
    let mut j = 1;
    // A turn moves one of the two indices or both: no `for` does that.
    while i < one.len() {
        if other.len() <= j {
            return add_rest(one, i, delay, gathered, n);
        }
        let s = one[i];
        let t = other[j];
        // `t.min(s)` in this order: then one comparison serves it and the two tests below.
        gathered[n] = t.min(s) + delay;
        n += 1;
        i += slices::not_above(s, t);
        j += slices::not_above(t, s);
    }
    add_rest(other, j, delay, gathered, n)
}

// Puts the times of a fan-in from frame `from` on, each plus the delay, behind the first `count` gathered; how many there
// are then.
fn add_rest(fanin: &[Tick], from: usize, delay: Tick, gathered: &mut [Tick], count: usize) -> usize
    requires { Span fanin.now × (delay ≤ most_delay) × (from ≤ length fanin.now) × (count + (length fanin.now - from) ≤ length gathered.old) }
    ensures { Added gathered.old gathered.new count (plus delay (drop from fanin.now)) result }
{
    let mut n = count;
    // Over the range, since a loop over `&fanin[from..]` is slower where few times are left.
    for k in from..fanin.len() {
        gathered[n] = fanin[k] + delay;
        n += 1;
    }
    n
}

// The times of a net that is planned.
pub fn times_of<'a>(directory: &[u16], times: &'a [Tick], net: Net) -> &'a [Tick]
    requires net_in_bounds { 2 * net.0 + 1 < length directory.now }
    requires net_in_bounds_2 { get_or directory.now (2 * net.0) 0 + get_or directory.now (2 * net.0 + 1) 0 ≤ length times.now }
    ensures { result.now ≡ part_of directory.now times.now net.0 }
{
    let at = 2 * (net.0 as usize);
    let first = directory[at] as usize;
    let end = first + directory[at + 1] as usize;
    &times[first..end]
}

// Puts the later times of a fan-in, each plus the delay, in their places among the first `count` gathered; how many there
// are then. They rise, so each place is sought from the one before.
fn add_times(fanin: &[Tick], delay: Tick, gathered: &mut [Tick], count: usize) -> usize
    requires fanin_value { (start_and_rise fanin.now ≡ true) × ((i : ℕ) → get_or fanin.now i 0 ≤ most_time) }
    requires le_delay { (1 ≤ delay) × (delay ≤ most_delay) × (count + length fanin.now < length gathered.old) }
    ensures { Put gathered.new (into delay (drop 1 fanin.now) (take count gathered.old)) (count + length fanin.now) result }
{
    let mut n = count;
    let mut place = 0;
    let later = &fanin[1..];
    for s in later {
        let t = *s + delay;
        place = slices::first_above(&gathered[..n], place, t - 1);
        n = put_time(gathered, n, place, Time(t));
    }
    n
}

// Puts a time, not 0, at its place among the first `count` gathered, unless it is there; how many there are then.
#[tactic(auto, using(crate::proofs::Inserting::place_most))]
fn put_time(gathered: &mut [Tick], count: usize, place: usize, time: Time) -> usize
    requires { (count < length gathered.old) × (1 ≤ time.0) × (place ≡ leading (time.0 - 1) (take count gathered.old)) }
    ensures { Inserted gathered.old gathered.new count time.0 result }
{
    let t = time.0;
    if place < count && gathered[place] == t {
        return count;
    }
    shift(gathered, place, count);
    gathered[place] = t;
    count + 1
}

// Moves the numbers from `place` up to `count` one place on, as `copy_within` would, which is slower on so few.
fn shift(gathered: &mut [Tick], place: usize, count: usize)
    requires { (place ≤ count) × (count < length gathered.old) }
    ensures { gathered.new ≡ take (place + 1) gathered.old ++ (drop place (take count gathered.old) ++ drop (count + 1) gathered.old) }
{
    for i in (place..count).rev() {
        gathered[i + 1] = gathered[i];
    }
}
