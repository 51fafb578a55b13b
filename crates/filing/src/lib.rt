// Writing a circuit file into a lent area, number by number. Each function writes as far as the area reaches, and nothing else.
#![tactic(auto)]

ghost use Rattle.std.specs.Prelude.{◌≡◌, ◌++◌, ◌+◌, ◌<◌, set};
ghost use Rattle.std.proofs.lemmas.List.Edits.{sets};
ghost use Rattle.editions.specs.Limits.{delay_range};
ghost use Rattle.editions.specs.Encode.{two_bytes, encode_delay, encode_head};

use editions::{Edition, delay_bytes};
use method::{Kind, Tick};

// The length that an area must have into which a call writes a file. The longest file is shorter.
pub const AREA_LENGTH: usize = 4096;

// One byte.
fn put_byte(area: &mut [u8], at: usize, byte: u8)
    ensures { area.new ≡ set area.old at byte }
{
    if at < area.len() {
        area[at] = byte;
    }
}

// A two-byte number, the low byte first.
pub fn put_number(area: &mut [u8], at: usize, number: u16)
    ensures { area.new ≡ sets area.old at (two_bytes number) }
{
    if area.len() <= at {
        return;
    }
    let [low, high] = number.to_le_bytes();
    put_byte(area, at, low);
    put_byte(area, at + 1, high);
}

// Two numbers, one behind the other: I, as the edition holds it, and G; or a record's offset and length.
pub fn put_pair(area: &mut [u8], at: usize, first: u16, second: u16)
    requires { at < 65536 }
    ensures { area.new ≡ sets area.old at (two_bytes first ++ two_bytes second) }
{
    put_number(area, at, first);
    put_number(area, at + 2, second);
}

// A delay, of two bytes or of one.
fn put_delay(edition: Edition, area: &mut [u8], at: usize, delay: Tick)
    requires { delay < delay_range edition }
    ensures { area.new ≡ sets area.old at (encode_delay edition delay) }
{
    if edition.wide {
        put_number(area, at, delay as u16);
    } else {
        put_byte(area, at, delay as u8);
    }
}

// The head of a gate's record: kind, d, di.
pub fn put_head(
    edition: Edition,
    area: &mut [u8],
    at: usize,
    kind: Kind,
    delay: Tick,
    inertial: Tick,
)
    requires { (at < 65536) × (delay < delay_range edition) × (inertial < delay_range edition) }
    ensures { area.new ≡ sets area.old at (encode_head edition kind delay inertial) }
{
    let second = at + 1 + delay_bytes(edition) as usize;
    put_byte(area, at, u8::from(kind));
    put_delay(edition, area, at + 1, delay);
    put_delay(edition, area, second, inertial);
}
