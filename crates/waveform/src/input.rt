// The wave program's input, taken apart.
ghost use Rattle.std.specs.Prelude.{◌≡◌, ◌≤◌, length};
ghost use Rattle.waveform.specs.Input.{whole, words_from};
ghost use Rattle.waveform.specs.Steps.{list_length};

use numbers::word_at_byte;

const MOST_BYTES: usize = 4096;

// Of a word part: 16 for each of 32 inputs.
const MOST_WORD_BYTES: usize = 512;

// Whether the input has at least two bytes, not too many, and as many circuit bytes as it says.
pub(crate) fn is_whole(input: &[u8]) -> bool
    ensures { result ≡ whole input.now }
{
    if input.len() < 2 {
        return false;
    }
    if MOST_BYTES < input.len() {
        return false;
    }
    let end = 2 + numbers::number_at(input, 0) as usize;
    end <= input.len()
}

// How many words the word part has for each list. Where it does not divide, or has more than any circuit takes, there are
// none, and Run refuses it with 11.
pub(crate) fn list_length(part: &[u8]) -> usize
    ensures { result ≡ list_length (length part.now) }
{
    if part.len() % 16 != 0 {
        return 0;
    }
    if MOST_WORD_BYTES < part.len() {
        return 0;
    }
    part.len() / 16
}

// Fills the list from word `first` of the word part on.
pub(crate) fn take_words(part: &[u8], first: usize, words: &mut [u64])
    requires { (first ≤ 32) × (length words.old ≤ 32) }
    ensures { words.new ≡ words_from part.now first (length words.old) }
{
    for (i, word) in words.iter_mut().enumerate() {
        *word = word_at_byte(part, 8 * (first + i));
    }
}
