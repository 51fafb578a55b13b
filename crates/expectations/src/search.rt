// The search for the first expectation that a run does not meet.
ghost use Rattle.std.specs.Prelude.{◌≡◌};
ghost use Rattle.method.specs.Layout.{frame_count};
ghost use Rattle.expectations.specs.Verdict.{verdict_on_paper};
ghost use Rattle.expectations.specs.Steps.{breaks_at, searched};

use crate::{Expectation, Unmet};
use method::{Frame, Tick};
use slices::entry_at;

// How many frames the net of an expectation has.
fn frame_count(e: Expectation, directory: &[u16]) -> u16
    ensures { result ≡ frame_count directory.now e.net.0 }
{
    entry_at(directory, 2 * (e.net.0 as usize) + 1)
}

// Whether a frame of its net breaks an expectation, by what is seen of it: its level is another, and it lasts over some time of
// the span, that is, it begins by the span's end, and ends after the span's start or not at all.
fn breaks(e: Expectation, directory: &[u16], times: &[Tick], values: &[u64], frame: Frame) -> bool
    ensures { result ≡ breaks_at directory.now times.now values.now e frame.0 }
{
    let t = looks::times_of(directory, times, e.net);
    let v = looks::values_of(directory, values, e.net);
    let seen = looks::sight_at(t, v, e.lane, frame);
    if seen.level == (e.level == 1) {
        return false;
    }
    if e.to.0 < seen.began.0 {
        return false;
    }
    match seen.until {
        Some(next) => e.from.0 < next.0,
        None => true,
    }
}

// The first expectation that some frame breaks, with the first frame that does.
pub fn first_unmet(
    directory: &[u16],
    times: &[Tick],
    values: &[u64],
    list: &[Expectation],
) -> Option<Unmet>
    ensures { verdict_on_paper result ≡ searched directory.now times.now values.now list.now }
{
    'list: {
        for (i, e) in list.iter().enumerate() {
            for k in 0..frame_count(*e, directory) {
                if breaks(*e, directory, times, values, Frame(k)) {
                    break 'list Some(Unmet {
                        position: i,
                        frame: Frame(k),
                    });
                }
            }
        }
        None
    }
}
