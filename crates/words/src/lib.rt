// 64 lanes in a word: the bit of a lane, and the inertial filter over the words of a net's frames.
#![tactic(auto)]

ghost use Rattle.std.specs.Prelude.{◌≡◌};
ghost use Rattle.method.specs.Words as bits;
ghost use Rattle.words.specs.Filtered.{filtered_words};
ghost use Rattle.words.specs.Steps.{differing_lanes, kept_word};

// The bit of a lane. A word has 64; from lane 64 on there is none, and it counts as 0.
pub fn bit_of(word: u64, lane: u8) -> bool
    ensures { result ≡ bits.lane lane word }
{
    if 63 < lane {
        return false;
    }
    (word >> lane) % 2 == 1
}

// Filters the words of a net's frames in place, each with its inertial index. The frames after k are still raw when k is
// decided. Without an index for each word it leaves them as they are.
pub fn filter(words: &mut [u64], inertial: &[u16])
    ensures { words.new ≡ filtered_words inertial.now words.old }
{
    let frames = words.len();
    if inertial.len() != frames {
        return;
    }
    if frames == 0 {
        return;
    }
    let mut before = words[0];
    for k in 1..frames {
        let count = (inertial[k] as usize).min(frames - (k + 1));
        before = kept(before, words[k], &words[k + 1..k + 1 + count]);
        words[k] = before;
    }
}

// The word of a frame after the filter: `before` is the filtered word of the frame before, `following` are the words after it that
// count. Mostly there is none or one, which takes no loop.
fn kept(before: u64, raw: u64, following: &[u64]) -> u64
    ensures { result ≡ kept_word before raw following.now }
{
    match following {
        [] => raw,
        [next] => raw ^ ((raw ^ before) & (*next ^ raw)),
        [next, others @ ..] => raw ^ ((raw ^ before) & (differing(raw, others) | (*next ^ raw))),
    }
}

// The lanes in which one of the words differs from the raw word, gathered from the last word on, as the proof goes.
fn differing(raw: u64, words: &[u64]) -> u64
    ensures { result ≡ differing_lanes raw words.now }
{
    words
        .iter()
        .rev()
        .fold(0, |lanes, word| lanes | (*word ^ raw))
}
