// Looking at one net's parts of the times and the values.
ghost use Rattle.std.specs.Prelude.{◌≡◌, true, map, ◌≤◌, length};
ghost use Rattle.lists.specs.Ladder.{first_no};
ghost use Rattle.method.specs.Times.{start_and_rise};
ghost use Rattle.method.specs.Indices.{last_frame};
ghost use Rattle.method.specs.Look as look;
ghost use Rattle.method.specs.Words as bits;
ghost use Rattle.method.specs.Refusals.{first_of};
ghost use Rattle.method.specs.Limits.{most_net_frames};
ghost use Rattle.looks.specs.Look.{look_questions};

use method::{Frame, Refusal, Tick, Time};

// A net has at most this many frames.
const MOST_NET_FRAMES: usize = 64;

const LAST_LANE: u8 = 63;

// Questions 14 to 16.
pub(crate) fn ask_look(times: &[Tick], values: &[u64], lane: u8) -> Result<(), Refusal>
    ensures { first_of result ≡ first_no (look_questions times.now values.now lane) }
{
    let frames = times.len();
    if frames != values.len() {
        return Err(Refusal::PartLengths);
    }
    if frames == 0 {
        return Err(Refusal::PartLengths);
    }
    if MOST_NET_FRAMES < frames {
        return Err(Refusal::PartLengths);
    }
    if !start_and_rise(times) {
        return Err(Refusal::TimesNotRising);
    }
    if LAST_LANE < lane {
        return Err(Refusal::NoLane);
    }
    Ok(())
}

// Question 15.
fn start_and_rise(times: &[Tick]) -> bool
    ensures { result ≡ start_and_rise times.now }
{
    times.first() == Some(&0) && times.is_sorted_by(|a, b| a < b)
}

// The last frame not later than the time. There is one, since time 0 is not later.
pub(crate) fn last_frame(times: &[Tick], time: Time) -> Frame
    requires { (start_and_rise times.now ≡ true) × (length times.now ≤ most_net_frames) }
    ensures { result.0 ≡ last_frame times.now time.0 }
{
    let later = slices::first_above(times, 1, time.0);
    Frame((later - 1) as u16)
}

// At how many frames from 1 on the lane's bit differs from the frame before.
pub(crate) fn changes(values: &[u64], lane: u8) -> u16
    requires { length values.now ≤ most_net_frames }
    ensures { result ≡ look.changes (map (bits.lane lane) values.now) }
{
    let mut n = 0;
    // A number to add, and no `count` of those that differ: its jump is guessed wrong.
    for k in 1..values.len() {
        n += u16::from(words::bit_of(values[k] ^ values[k - 1], lane));
    }
    n
}
