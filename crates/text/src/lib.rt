// Text, put into a buffer from a place on. Each function answers the place behind what it wrote; past the buffer's end
// nothing is written.
#![tactic(auto)]

ghost use Rattle.std.specs.Prelude.{[], ◌∷◌, ◌≤◌};
ghost use Rattle.text.specs.Text.{decimal, digit_at, newline, refusal, frame_text};
ghost use Rattle.text.specs.Wrote.{Wrote};

use method::Time;

// One byte.
fn put(output: &mut [u8], at: usize, byte: u8) -> usize
    ensures { Wrote output.old at (byte ∷ []) output.new result }
{
    if output.len() <= at {
        return at;
    }
    output[at] = byte;
    at + 1
}

// All bytes of a text.
fn put_all(output: &mut [u8], at: usize, text: &[u8]) -> usize
    ensures { Wrote output.old at text.now output.new result }
{
    let mut end = at;
    for byte in text {
        end = put(output, end, *byte);
    }
    end
}

// The digit of n at a power of ten, where n reaches it.
#[tactic(auto, unfolding(crate::specs::Text::digit_at))]
fn put_digit(output: &mut [u8], at: usize, power: u32, n: u32) -> usize
    requires { 1 ≤ power }
    ensures { Wrote output.old at (digit_at power n) output.new result }
{
    if n < power {
        return at;
    }
    put(output, at, b'0' + (n / power % 10) as u8)
}

// A number in decimal.
pub fn put_number(output: &mut [u8], at: usize, n: u32) -> usize
    ensures { Wrote output.old at (decimal n) output.new result }
{
    let mut end = at;
    for power in [1_000_000, 100_000, 10_000, 1_000, 100, 10] {
        end = put_digit(output, end, power, n);
    }
    put(output, end, b'0' + (n % 10) as u8)
}

// A blank and time=level.
pub fn put_frame(output: &mut [u8], at: usize, time: Time, level: bool) -> usize
    ensures { Wrote output.old at (frame_text time.0 level) output.new result }
{
    let a = put(output, at, b' ');
    let b = put_number(output, a, time.0);
    let c = put(output, b, b'=');
    put(output, c, b'0' + level as u8)
}

// A refusal, from the buffer's start on.
pub fn put_refused(output: &mut [u8], number: u8) -> usize
    ensures { Wrote output.old 0 (refusal number) output.new result }
{
    let a = put_all(output, 0, b"refused ");
    let b = put_number(output, a, number as u32);
    put_newline(output, b)
}

// The end of a line.
pub fn put_newline(output: &mut [u8], at: usize) -> usize
    ensures { Wrote output.old at (newline ∷ []) output.new result }
{
    put(output, at, b'\n')
}
