// What the wave program prints: from the bytes of its input to the bytes of its output.
#![tactic(auto)]

ghost use Rattle.std.specs.Prelude.{◌≡◌};
ghost use Rattle.waveform.specs.Wave.{page, wave_of, on_paper};

mod input;
mod nets;

use input::is_whole;
use nets::put_answer;
use text::put_refused;

// The length that the buffer must have. The longest text is shorter.
pub const BUFFER_LENGTH: usize = 24000;

// The buffer has another length than it must have.
#[derive(Clone, Copy)]
pub struct OtherLength;

// What printing answers: the length of the text.
pub type Printing = Result<usize, OtherLength>;

// Writes what the wave program prints for the input to the start of the buffer, and zeros behind it.
pub fn wave(input: &[u8], output: &mut [u8]) -> Printing
    ensures { page (on_paper result) output.new ≡ wave_of input.now output.old }
{
    if output.len() != BUFFER_LENGTH {
        return Err(OtherLength);
    }
    clearing::clear(output);
    if !is_whole(input) {
        return Ok(put_refused(output, 0));
    }
    let end = 2 + numbers::number_at(input, 0) as usize;
    Ok(put_answer(&input[2..end], &input[end..], output))
}
