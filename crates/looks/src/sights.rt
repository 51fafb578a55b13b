// What is seen of a frame by its number.
ghost use Rattle.std.specs.Prelude.{◌≡◌, map, suc, drop};
ghost use Rattle.method.specs.Words as bits;
ghost use Rattle.looks.specs.Sight.{end_by, sight_at, end_on_paper, sight_on_paper};

use crate::Sight;
use method::{Frame, Tick, Time};
use slices::entry_at;

// What is seen in the lane at the frame, from one net's parts of the times and the values, whatever they hold: nothing is
// asked of them. What they do not have is level 0, time 0 and no end.
pub fn sight_at(times: &[Tick], values: &[u64], lane: u8, frame: Frame) -> Sight
    ensures { sight_on_paper result ≡ sight_at times.now (map (bits.lane lane) values.now) frame.0 }
{
    let k = frame.0 as usize;
    let level = words::bit_of(entry_at(values, k), lane);
    let began = Time(entry_at(times, k));
    let until = until(times, frame);
    Sight {
        level,
        began,
        until,
    }
}

// Until when the frame lasts.
fn until(times: &[Tick], frame: Frame) -> Option<Time>
    ensures { end_on_paper result ≡ end_by (drop (suc frame.0) times.now) }
{
    let next = times.get(frame.0 as usize + 1)?;
    Some(Time(*next))
}
