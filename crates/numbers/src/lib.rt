// Numbers as bytes, the lowest byte first, at any place: past the end of the bytes they are 0.
#![tactic(auto)]

ghost use Rattle.std.specs.Prelude.{◌≡◌, ◌+◌, ◌<◌, length, drop};
ghost use Rattle.numbers.specs.Numbers.{byte_at, number_at, word_at};

// What is left of the bytes from a place on.
fn left(bytes: &[u8], at: usize) -> &[u8]
    ensures { result.now ≡ drop at bytes.now }
{
    bytes.get(at..).unwrap_or(&[])
}

// The byte at a place.
pub fn byte_at(bytes: &[u8], at: usize) -> u8
    ensures { result ≡ byte_at bytes.now at }
{
    bytes.get(at).copied().unwrap_or(0)
}

// The two-byte number at a place. Where both bytes are there, which is nearly always, one test of the place shows it.
#[tactic(auto, unfolding(crate::specs::Numbers::number_at))]
pub fn number_at(bytes: &[u8], at: usize) -> u16
    ensures { result ≡ number_at bytes.now at }
{
    if bytes.len() < 2 || bytes.len() - 2 < at {
        return u16::from(byte_at(bytes, at));
    }
    number_in(bytes, at)
}

// The same of bytes that are there, which is not tested.
#[tactic(auto, unfolding(crate::specs::Numbers::number_at))]
pub fn number_in(bytes: &[u8], at: usize) -> u16
    requires { at + 1 < length bytes.now }
    ensures { result ≡ number_at bytes.now at }
{
    u16::from_le_bytes([bytes[at], bytes[at + 1]])
}

// The word whose eight bytes start at `at`, the least significant first. Past the end of the bytes it reads zeros.
pub fn word_at_byte(bytes: &[u8], at: usize) -> u64
    ensures { result ≡ word_at bytes.now at }
{
    let rest = left(bytes, at);
    u64::from_le_bytes(std::array::from_fn(|k| byte_at(rest, k)))
}
