// The frames of one gate, written behind those of the nets before it. An inner crate: its functions ask their caller for what
// they need.
#![tactic(auto)]

ghost use Rattle.std.specs.Prelude.{◌≡◌, length};
ghost use mathlib.Core.List.{flat_map};
ghost use Rattle.method.specs.Times.{gate_times};
ghost use Rattle.method.specs.Indices.{inertial_indices};
ghost use Rattle.method.specs.Frames.{fanin_row};
ghost use Rattle.method.specs.Areas.{areas};
ghost use Rattle.gathering.specs.Steps.{Fed, Span, spans};
ghost use Rattle.framing.specs.Steps.{Place, Slot, Stored, Timed};

mod indices;

use circuit::GateRecord;
use indices::{index_rows, inertial_row};
use method::{Net, Tick, Time, Totals};

// Writes the frames of a gate with these times, and its pair; the totals with this gate.
pub fn store_gate(
    file: &[u8],
    gate: GateRecord,
    net: Net,
    own: &[Tick],
    directory: &mut [u16],
    times: &mut [Tick],
    inertial: &mut [u16],
    fanins: &mut [u16],
    totals: Totals,
) -> Totals
    requires fed { Fed file.now gate directory.old times.old }
    requires span { Span own.now × (own.now ≡ gate_times gate.delay (spans file.now gate.list gate.entries directory.old times.old)) }
    requires place { Place (areas directory.old times.old inertial.old fanins.old) net.0 totals (length own.now) gate.entries }
    ensures { Stored (areas directory.old times.old inertial.old fanins.old) (areas directory.new times.new inertial.new fanins.new) net.0 totals result gate.entries own.now (inertial_indices gate.inertial own.now) (flat_map (fanin_row gate.delay (spans file.now gate.list gate.entries directory.old times.old)) own.now) }
{
    let first = totals.frames;
    let at = totals.fanins;
    inertial_row(own, gate.inertial, inertial, first as usize);
    index_rows(file, gate, directory, times, own, fanins, at as usize);
    store_times(gate.entries, net, own, directory, times, totals)
}

// Writes the times of a gate with this many fan-in entries, and its pair; the totals with this gate.
pub fn store_times(
    entries: u16,
    net: Net,
    own: &[Tick],
    directory: &mut [u16],
    times: &mut [Tick],
    totals: Totals,
) -> Totals
    requires { Span own.now × Slot directory.old times.old net.0 totals (length own.now) entries }
    ensures { Timed directory.old directory.new times.old times.new net.0 totals result entries own.now }
{
    let count = own.len();
    let first = totals.frames;
    let last = totals.last;
    slices::store(times, first as usize, own);
    let pair = 2 * (net.0 as usize);
    directory[pair] = first;
    directory[pair + 1] = count as u16;
    let end = own.last().copied().unwrap_or(0);
    Totals {
        frames: first + count as u16,
        fanins: totals.fanins + count as u16 * entries,
        last: Time(slices::later_of(last.0, end)),
    }
}
