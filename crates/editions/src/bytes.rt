// What single numbers of a circuit file say.
ghost use Rattle.std.specs.Prelude.{◌≡◌, ◌+◌, ◌-◌, ◌*◌, ◌/◌, ◌≤◌, length};
ghost use Rattle.editions.specs.Edition.{delay_bytes};
ghost use Rattle.editions.specs.File.{offset_of, length_of, record_head, delay_at, kind_of};

use crate::Edition;
use method::{Kind, Tick};
use numbers::number_in;

// Where the record of a gate starts whose pair is there.
pub(crate) fn offset_of(file: &[u8], j: u16) -> u16
    requires { 8 + 4 * j ≤ length file.now }
    ensures { result ≡ offset_of file.now j }
{
    number_in(file, 4 + 4 * (j as usize))
}

// How long it is.
pub(crate) fn length_of(file: &[u8], j: u16) -> u16
    requires { 8 + 4 * j ≤ length file.now }
    ensures { result ≡ length_of file.now j }
{
    number_in(file, 6 + 4 * (j as usize))
}

// How many bytes a delay has.
pub fn delay_bytes(edition: Edition) -> u16
    ensures { result ≡ delay_bytes edition }
{
    if edition.wide { 2 } else { 1 }
}

// How many bytes a record has before its fan-in list.
pub fn record_head(edition: Edition) -> u16
    ensures { result ≡ record_head edition }
{
    if edition.wide { 5 } else { 3 }
}

// The delay, which is there, that starts at a place.
pub(crate) fn delay_at(edition: Edition, file: &[u8], at: usize) -> Tick
    requires { at + delay_bytes edition ≤ length file.now }
    ensures { result ≡ delay_at edition file.now at }
{
    if edition.wide {
        number_in(file, at) as Tick
    } else {
        file[at] as Tick
    }
}

// How many fan-in entries a record of this length has behind its head.
pub(crate) fn entries_of(len: u16, head: u16) -> u16
    ensures { result ≡ (len - head) / 2 }
{
    if len < head { 0 } else { (len - head) / 2 }
}

// The kind with this number, and XNOR for a number that is no kind's.
pub(crate) fn kind_of(number: u8) -> Kind
    ensures { result ≡ kind_of number }
{
    Kind::try_from(number).unwrap_or(Kind::Xnor)
}
