// Questions 10, 11 and 20.
ghost use Rattle.std.specs.Prelude.{◌≡◌};
ghost use Rattle.lists.specs.Ladder.{first_no};
ghost use Rattle.method.specs.Changes.{schedule};
ghost use Rattle.method.specs.Refusals.{first_of};
ghost use Rattle.method.specs.WordLists.{words_in, lengths_of};
ghost use Rattle.engine.specs.Areas.{areas};
ghost use Rattle.engine.specs.Questions.{own_questions};

use method::{Refusal, Tick, Words};

const VALUES_LENGTH: usize = 2048;

// Questions 10, 11 and 20.
pub(crate) fn ask_own(
    inputs: u16,
    counts: &[u8],
    changes: &[Tick],
    directory: &[u16],
    times: &[Tick],
    inertial: &[u16],
    fanins: &[u16],
    values: &[u64],
    words: Words,
) -> Result<(), Refusal>
    ensures { first_of result ≡ first_no (own_questions inputs (schedule counts.now changes.now) (lengths_of (words_in words.entry)) (areas directory.now times.now inertial.now fanins.now values.now)) }
{
    if !planner::areas_suit(directory, times, inertial, fanins) {
        return Err(Refusal::AreaLengths);
    }
    if values.len() != VALUES_LENGTH {
        return Err(Refusal::AreaLengths);
    }
    if !stimulus::words_suit(inputs, changes, words) {
        return Err(Refusal::WordCounts);
    }
    if !stimulus::changes_suit(inputs, counts, changes) {
        return Err(Refusal::ChangeTimes);
    }
    Ok(())
}
