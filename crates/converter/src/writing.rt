// A file written anew, in another edition than the one that it is read in.
ghost use Rattle.std.specs.Prelude.{◌≡◌, ℕ, ◌+◌, ◌*◌, ◌≤◌, ◌<◌, length};
ghost use mathlib.Core.List.{flat_map};
ghost use Rattle.std.proofs.lemmas.List.Edits.{sets};
ghost use Rattle.lists.specs.Tables.{tabulate};
ghost use Rattle.editions.specs.File.{inputs_of, gates_of, head_length, record_head, fanin_at, gate_of};
ghost use Rattle.editions.specs.Lies.{Lies};
ghost use Rattle.editions.specs.Encode.{two_bytes, encode_gate, encode_pairs};
ghost use Rattle.converter.specs.Convert.{delays_up_to};
ghost use Rattle.converter.specs.Steps.{gates_in, Ready, Fits, Wrote, WroteFile};

use editions::{Edition, fanin_at, gate_at, record_head};
use filing::{put_head, put_number, put_pair};
use method::Tick;

// Question 23: whether no delay of the first gates is above the greatest.
pub(crate) fn delays_up_to(edition: Edition, most: Tick, file: &[u8], gates: u16) -> bool
    requires { (j : ℕ) → j < gates → Lies (record_head edition) file.now j }
    ensures { result ≡ delays_up_to most (tabulate gates (gate_of edition file.now)) }
{
    (0..gates).all(|j| {
        let gate = gate_at(edition, file, j);
        gate.delay <= most && gate.inertial <= most
    })
}

// Writes all of the file and zeros behind it, and answers its length.
pub(crate) fn write(
    from: Edition,
    to: Edition,
    file: &[u8],
    inputs: u16,
    gates: u16,
    area: &mut [u8],
) -> u16
    requires { Ready from to file.now area.old × (inputs ≡ inputs_of from file.now) × (gates ≡ gates_of file.now) }
    ensures { WroteFile from to file.now area.old area.new result }
{
    clearing::clear(area);
    put_pair(area, 0, inputs + to.added, gates);
    write_pairs(from, to, file, gates, area);
    write_records(from, to, file, gates, area)
}

// The pairs of offset and length.
fn write_pairs(from: Edition, to: Edition, file: &[u8], gates: u16, area: &mut [u8])
    requires { Fits from to file.now gates }
    ensures { area.new ≡ sets area.old 4 (encode_pairs to (head_length gates) (gates_in from file.now gates 0)) }
{
    let mut start = 4 + 4 * gates;
    for j in 0..gates {
        let gate = gate_at(from, file, j);
        let len = record_head(to) + 2 * gate.entries;
        put_pair(area, 4 + 4 * j as usize, start, len);
        start += len;
    }
}

// The records, one behind the other; the answer is the place behind the last.
fn write_records(from: Edition, to: Edition, file: &[u8], gates: u16, area: &mut [u8]) -> u16
    requires { Fits from to file.now gates }
    ensures { Wrote area.old (head_length gates) (flat_map (encode_gate to) (gates_in from file.now gates 0)) area.new result }
{
    let mut at = 4 + 4 * gates;
    for j in 0..gates {
        at = write_record(from, to, file, j, area, at);
    }
    at
}

// The record of gate j from a place on; the answer is the place behind it.
fn write_record(from: Edition, to: Edition, file: &[u8], j: u16, area: &mut [u8], at: u16) -> u16
    requires { Fits from to file.now (j + 1) × (at ≤ 4096) }
    ensures { Wrote area.old at (encode_gate to (gate_of from file.now j)) area.new result }
{
    let gate = gate_at(from, file, j);
    let kind = gate.kind;
    put_head(to, area, at as usize, kind, gate.delay, gate.inertial);
    let list = at + record_head(to);
    copy_fanins(file, gate.list, gate.entries, area, list);
    list + 2 * gate.entries
}

// The entries of the fan-in list that starts at byte `list`, from a place of the area on.
fn copy_fanins(file: &[u8], list: u32, entries: u16, area: &mut [u8], at: u16)
    requires { list + 2 * entries ≤ length file.now }
    ensures { area.new ≡ sets area.old at (flat_map two_bytes (tabulate entries (fanin_at file.now list))) }
{
    for i in 0..entries {
        let fanin = fanin_at(file, list, i);
        put_number(area, at as usize + 2 * i as usize, fanin.0);
    }
}
