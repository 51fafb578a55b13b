// What drives the inputs, as a caller lends it: a count for each input and all their change times, question 20, and their words,
// question 11.
#![tactic(auto)]

ghost use Rattle.std.specs.Prelude.{◌≡◌, map, ℕ, ◌≤◌, leb, length};
ghost use Rattle.lists.specs.Ladder.{between};
ghost use Rattle.lists.specs.Tables.{tabulate, every};
ghost use Rattle.method.specs.Times.{rise_above};
ghost use Rattle.method.specs.Changes.{schedule, start_of, moments_from, most_changes, last_change, changes_suit};
ghost use Rattle.method.specs.WordLists.{words_in, lengths_of, words_suit};

use method::{Tick, Words};
use slices::is_between;

// An input changes at most this often,
const MOST_CHANGES: u8 = 8;

// and at this time at the latest.
const LAST_CHANGE: Tick = 255;

// Question 11: a before word for each input, and an after word for each change.
pub fn words_suit(inputs: u16, changes: &[Tick], words: Words) -> bool
    ensures { result ≡ words_suit inputs (length changes.now) (lengths_of (words_in words.entry)) }
{
    if words.before.len() != inputs as usize {
        return false;
    }
    words.after.len() == changes.len()
}

// Question 20. The counts are added up only once they are as many as the inputs, and the times parted only once the sum is their
// number: no sum wraps, and no part reaches beyond the times.
pub fn changes_suit(inputs: u16, counts: &[u8], changes: &[Tick]) -> bool
    ensures { result ≡ changes_suit inputs (schedule counts.now changes.now) }
{
    if counts.len() != inputs as usize {
        return false;
    }
    if !counts_suit(counts) {
        return false;
    }
    if total(counts) != changes.len() {
        return false;
    }
    if !times_suit(changes) {
        return false;
    }
    each_rises(counts, changes)
}

// Whether no count is above 8.
fn counts_suit(counts: &[u8]) -> bool
    ensures { result ≡ every (map (λ (k : ℕ). leb k most_changes) counts.now) }
{
    counts.iter().all(|count| *count <= MOST_CHANGES)
}

// The counts added up. There are no more of them than a u16 can number, so the sum fits.
fn total(counts: &[u8]) -> usize
    requires { length counts.now ≤ 65535 }
    ensures { result ≡ start_of counts.now (length counts.now) }
{
    counts.iter().map(|count| *count as usize).sum()
}

// Whether each time is from 1 to 255.
fn times_suit(changes: &[Tick]) -> bool
    ensures { result ≡ every (map (between 1 last_change) changes.now) }
{
    changes.iter().all(|time| is_between(1, LAST_CHANGE, *time))
}

// Whether the times of each input strictly rise from above 0. Those of input i start at `at`, behind those of the inputs before it.
fn each_rises(counts: &[u8], changes: &[Tick]) -> bool
    requires { start_of counts.now (length counts.now) ≡ length changes.now }
    ensures { result ≡ every (map (rise_above 0) (tabulate (length counts.now) (moments_from (schedule counts.now changes.now)))) }
{
    let mut at = 0;
    for count in counts {
        let end = at + *count as usize;
        if !rises(&changes[at..end]) {
            return false;
        }
        at = end;
    }
    true
}

// Whether one input's times strictly rise, the first above 0.
fn rises(times: &[Tick]) -> bool
    ensures { result ≡ rise_above 0 times.now }
{
    let mut last: Tick = 0;
    for time in times {
        if *time <= last {
            return false;
        }
        last = *time;
    }
    true
}
