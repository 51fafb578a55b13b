// Level and Count: what is read off one net's parts of the times and the values.
#![tactic(auto)]

ghost use Rattle.std.specs.Prelude.{◌≡◌};
ghost use Rattle.method.specs.Refusals.{on_paper};
ghost use Rattle.looks.specs.Look.{level_of, count_of, seen_on_paper};

mod looking;
mod parts;
mod sights;

use looking::{ask_look, changes, last_frame};
use method::{Refusal, Tick, Time};
pub use parts::{times_of, values_of};
pub use sights::sight_at;

// What is seen of a net in a lane at a frame: the level, when the frame began, and until when it lasts, the time at which the
// next begins. The last frame has no end.
#[derive(Clone, Copy)]
pub struct Sight {
    pub level: bool,
    pub began: Time,
    pub until: Option<Time>,
}

// What Level answers: the level with its frame's begin and end, or the first "no".
pub type Seen = Result<Sight, Refusal>;

// What Count answers: how many changes, or the first "no".
pub type Counted = Result<u16, Refusal>;

// The level of a lane at a time, with begin and end of the frame that holds the time, from one net's parts of the times and
// the values: questions 14 to 16.
pub fn level(times: &[Tick], values: &[u64], lane: u8, time: Time) -> Seen
    ensures { seen_on_paper result ≡ level_of times.now values.now lane time.0 }
{
    ask_look(times, values, lane)?;
    let frame = last_frame(times, time);
    Ok(sight_at(times, values, lane, frame))
}

// How often a lane changes, from one net's parts of the times and the values: questions 14 to 16.
pub fn count(times: &[Tick], values: &[u64], lane: u8) -> Counted
    ensures { on_paper result ≡ count_of times.now values.now lane }
{
    ask_look(times, values, lane)?;
    Ok(changes(values, lane))
}
