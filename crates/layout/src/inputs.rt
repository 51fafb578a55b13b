// The inputs, one after the other: the pair and the times of each. Their inertial indices are 0, and they have no fan-in rows.
ghost use Rattle.std.specs.Prelude.{◌≡◌, ◌∷◌, ◌+◌, ◌<◌, length, get_or};
ghost use Rattle.method.specs.Changes.{schedule, moments_from};
ghost use Rattle.method.specs.First.{Inputs};
ghost use Rattle.layout.specs.Steps.{Begun, Open};

use method::{Tick, Time, Totals};

// Writes the pairs and the times of the inputs into areas of zeros, and answers their totals.
pub fn add_inputs(
    counts: &[u8],
    changes: &[Tick],
    directory: &mut [u16],
    times: &mut [Tick],
) -> Totals
    requires { Open (schedule counts.now changes.now) directory.old times.old × Inputs (moments_from (schedule counts.now changes.now)) directory.old times.old 0 }
    ensures { Begun (moments_from (schedule counts.now changes.now)) (length counts.now) directory.new times.new result }
{
    let mut totals = Totals {
        frames: 0,
        fanins: 0,
        last: Time(0),
    };
    for n in 0..counts.len() {
        totals = add_input(counts, changes, directory, times, n, totals);
    }
    totals
}

// Writes the pair and the times of input n behind those of the inputs before it, which have these totals: so many frames, one
// each and one for each change.
fn add_input(
    counts: &[u8],
    changes: &[Tick],
    directory: &mut [u16],
    times: &mut [Tick],
    n: usize,
    totals: Totals,
) -> Totals
    requires { Open (schedule counts.now changes.now) directory.old times.old × (n < length counts.now) × Begun (moments_from (schedule counts.now changes.now)) n directory.old times.old totals }
    ensures { Begun (moments_from (schedule counts.now changes.now)) (n + 1) directory.new times.new result }
{
    let first = totals.frames;
    let count = counts[n] as u16;
    let start = first as usize - n;
    let end = start + count as usize;
    let own = &changes[start..end];
    times[first as usize] = 0;
    slices::store(times, first as usize + 1, own);
    directory[2 * n] = first;
    directory[2 * n + 1] = count + 1;
    let last = last_of(own);
    Totals {
        frames: first + (count + 1),
        fanins: 0,
        last: Time(totals.last.0.max(last)),
    }
}

// The last of an input's times: its last change, or 0 where it has none.
fn last_of(changes: &[Tick]) -> Tick
    ensures { result ≡ get_or (0 ∷ changes.now) (length changes.now) 0 }
{
    changes.last().copied().unwrap_or(0)
}
