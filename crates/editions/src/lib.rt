// The circuit file in its two editions: questions 1 to 9, and a gate's record. One reader serves both.
#![tactic(auto)]

ghost use Rattle.std.specs.Prelude.{◌≡◌, ℕ, ◌+◌, ◌*◌, ◌≤◌, ◌<◌, length};
ghost use Rattle.lists.specs.Ladder.{first_no, between};
ghost use Rattle.lists.specs.Tables.{tabulate, all_below};
ghost use mathlib.Core.List.{flatten};
ghost use Rattle.method.specs.Kinds.{takes};
ghost use Rattle.method.specs.Refusals.{first_of, on_paper};
ghost use Rattle.editions.specs.Edition as edition;
ghost use Rattle.editions.specs.File.{inputs_of, head_length, record_head, fanin_at, record_of};
ghost use Rattle.editions.specs.Questions.{fills, head_questions, gate_questions, length_suits, read_of};
ghost use Rattle.editions.specs.Limits.{most_inputs, most_gates, delays_suit};
ghost use Rattle.editions.specs.Lies.{Lies};

mod bytes;

use bytes::{delay_at, entries_of, kind_of, length_of, offset_of};
pub use bytes::{delay_bytes, record_head};
use method::{Kind, Net, Refusal, Tick};
use numbers::{number_at, number_in};

const MOST_INPUTS: u16 = 32;

const MOST_GATES: u16 = 128;

const MOST_FANINS: u16 = 8;

// What tells an edition apart: what bytes 0-1 hold besides I, whether a delay has two bytes or one, and the greatest delay.
#[derive(Clone, Copy)]
pub struct Edition {
    pub added: u16,
    pub wide: bool,
    pub most: Tick,
}

// The edition of every call.
pub fn present() -> Edition
    ensures { result ≡ edition.present }
{
    Edition {
        added: 256,
        wide: true,
        most: 60000,
    }
}

// The one before it, which the converters alone read and write.
pub fn former() -> Edition
    ensures { result ≡ edition.former }
{
    Edition {
        added: 0,
        wide: false,
        most: 63,
    }
}

// What an accepted circuit file answers: I and G.
#[derive(Clone, Copy)]
pub struct InputsAndGates {
    pub inputs: u16,
    pub gates: u16,
}

// What reading a circuit file answers: I and G, or the first "no".
pub type Reading = Result<InputsAndGates, Refusal>;

// A gate's record, taken apart: its fan-in list has `entries` entries and starts at byte `list`.
#[derive(Clone, Copy)]
pub struct GateRecord {
    pub kind: Kind,
    pub delay: Tick,
    pub inertial: Tick,
    pub list: u32,
    pub entries: u16,
}

// Questions 1 to 9.
pub fn read(edition: Edition, file: &[u8]) -> Reading
    ensures { on_paper result ≡ read_of edition file.now }
{
    ask_head(edition, file)?;
    let inputs = inputs_of(edition, file);
    let gates = number_at(file, 2);
    ask_gates(edition, file, inputs, gates)?;
    Ok(InputsAndGates { inputs, gates })
}

// I, where bytes 0-1 hold it; else a number that question 2 has refused.
fn inputs_of(edition: Edition, file: &[u8]) -> u16
    ensures { result ≡ inputs_of edition file.now }
{
    let held = number_at(file, 0);
    let added = edition.added;
    if held < added { 0 } else { held - added }
}

// The record of gate j, which is there: nothing is tested.
pub fn gate_at(edition: Edition, file: &[u8], j: u16) -> GateRecord
    requires { Lies (record_head edition) file.now j }
    ensures { result ≡ record_of edition file.now j }
{
    let start = offset_of(file, j);
    let head = record_head(edition);
    let second = 1 + delay_bytes(edition) as usize;
    let kind = kind_of(file[start as usize]);
    let delay = delay_at(edition, file, start as usize + 1);
    let inertial = delay_at(edition, file, start as usize + second);
    let list = start as u32 + head as u32;
    let entries = entries_of(length_of(file, j), head);
    GateRecord {
        kind,
        delay,
        inertial,
        list,
        entries,
    }
}

// The same in the present edition, written out for planning and evaluation, which read a record for every gate.
pub fn present_gate(file: &[u8], j: u16) -> GateRecord
    requires { Lies 5 file.now j }
    ensures { result ≡ record_of edition.present file.now j }
{
    let pair = 4 * (j as usize);
    let start = number_in(file, 4 + pair);
    let first = start as usize;
    let kind = kind_of(file[first]);
    let delay = number_in(file, first + 1) as Tick;
    let inertial = number_in(file, first + 3) as Tick;
    let list = start as u32 + 5;
    let entries = entries_of(number_in(file, 6 + pair), 5);
    GateRecord {
        kind,
        delay,
        inertial,
        list,
        entries,
    }
}

// Entry i, which is there, of the fan-in list that starts at byte `list`.
pub fn fanin_at(file: &[u8], list: u32, i: u16) -> Net
    requires { list + 2 * i + 1 < length file.now }
    ensures { result.0 ≡ fanin_at file.now list i }
{
    Net(number_in(file, list as usize + 2 * (i as usize)))
}

// Questions 1 to 5.
fn ask_head(edition: Edition, file: &[u8]) -> Result<(), Refusal>
    ensures { first_of result ≡ first_no (head_questions edition file.now) }
{
    if file.len() < 4 {
        return Err(Refusal::ShortFile);
    }
    let held = number_at(file, 0);
    let gates = number_at(file, 2);
    if !inputs_suit(edition.added, held) {
        return Err(Refusal::InputCount);
    }
    if !slices::is_between(0, MOST_GATES, gates) {
        return Err(Refusal::GateCount);
    }
    if file.len() < 4 + 4 * (gates as usize) {
        return Err(Refusal::ShortPairs);
    }
    if !records_fill(file, gates, record_head(edition)) {
        return Err(Refusal::RecordPlaces);
    }
    Ok(())
}

// Question 2, of what bytes 0-1 hold.
fn inputs_suit(added: u16, held: u16) -> bool
    ensures { result ≡ between (1 + added) (most_inputs + added) held }
{
    if held < added {
        return false;
    }
    slices::is_between(1, MOST_INPUTS, held - added)
}

// Question 5: whether the pairs' records lie end to end, none shorter than the least length, and fill the file. No sum wraps.
fn records_fill(file: &[u8], gates: u16, least: u16) -> bool
    requires { head_length gates ≤ length file.now }
    ensures { result ≡ fills least file.now gates 0 (head_length gates) }
{
    let mut end = 4 + 4 * (gates as usize);
    for j in 0..gates {
        let start = offset_of(file, j) as usize;
        let len = length_of(file, j);
        if start != end {
            return false;
        }
        if len < least {
            return false;
        }
        end = start + len as usize;
    }
    end == file.len()
}

// Questions 6 to 9, gate by gate.
fn ask_gates(edition: Edition, file: &[u8], inputs: u16, gates: u16) -> Result<(), Refusal>
    requires inputs_value { (inputs ≡ inputs_of edition file.now) × (inputs ≤ most_inputs) × (gates ≤ most_gates) }
    requires by_index { (j : ℕ) → j < gates → Lies (record_head edition) file.now j }
    ensures { first_of result ≡ first_no (flatten (tabulate gates (gate_questions edition file.now))) }
{
    for j in 0..gates {
        ask_gate(edition, file, j, Net(inputs + j))?;
    }
    Ok(())
}

// Questions 6 to 9 of gate j, which drives `net`.
fn ask_gate(edition: Edition, file: &[u8], j: u16, net: Net) -> Result<(), Refusal>
    requires { (net.0 ≡ inputs_of edition file.now + j) × Lies (record_head edition) file.now j }
    ensures { first_of result ≡ first_no (gate_questions edition file.now j) }
{
    let start = offset_of(file, j) as usize;
    let Ok(kind) = Kind::try_from(file[start]) else {
        return Err(Refusal::GateKind);
    };
    let gate = gate_at(edition, file, j);
    if !delays_suit(edition, gate.delay, gate.inertial) {
        return Err(Refusal::Delays);
    }
    if !length_suits(edition, length_of(file, j), kind, gate.entries) {
        return Err(Refusal::RecordLength);
    }
    if !fanins_below(file, gate.list, gate.entries, net) {
        return Err(Refusal::FaninNumber);
    }
    Ok(())
}

// Question 7.
fn delays_suit(edition: Edition, delay: Tick, inertial: Tick) -> bool
    ensures { result ≡ delays_suit edition delay inertial }
{
    let most = edition.most;
    if !slices::is_between(1, most, delay) {
        return false;
    }
    slices::is_between(0, most, inertial)
}

// Question 8: a record of this length has this many fan-in entries, and the kind takes them.
fn length_suits(edition: Edition, len: u16, kind: Kind, entries: u16) -> bool
    ensures { result ≡ length_suits edition len kind entries }
{
    let head = record_head(edition) as u32;
    if len as u32 != head + 2 * (entries as u32) {
        return false;
    }
    takes_entries(kind, entries)
}

// Whether the kind takes this many fan-in entries.
fn takes_entries(kind: Kind, entries: u16) -> bool
    ensures { result ≡ takes kind entries }
{
    match kind {
        Kind::Buf | Kind::Not => entries == 1,
        _ => slices::is_between(2, MOST_FANINS, entries),
    }
}

// Question 9: whether the entries of the fan-in list at byte `list` are all below `net`.
fn fanins_below(file: &[u8], list: u32, entries: u16, net: Net) -> bool
    requires { list + 2 * entries ≤ length file.now }
    ensures { result ≡ all_below net.0 (tabulate entries (fanin_at file.now list)) }
{
    (0..entries).all(|i| fanin_at(file, list, i).0 < net.0)
}
