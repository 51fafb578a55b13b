// A net's parts of the times and the values.
ghost use Rattle.std.specs.Prelude.{◌≡◌, ◌+◌, min};
ghost use Rattle.method.specs.Layout.{first_frame, frame_count, part_of};

use method::{Net, Tick};
use slices::entry_at;

// Where the frames of a net lie in an area.
#[derive(Clone, Copy)]
struct Span {
    first: usize,
    end: usize,
}

// The net's part of the times, by its pair in the directory. Of a pair that reaches beyond the area it is what is there.
pub fn times_of<'a>(directory: &[u16], times: &'a [Tick], net: Net) -> &'a [Tick]
    ensures { result.now ≡ part_of directory.now times.now net.0 }
{
    let span = span_of(directory, net, times.len());
    let first = span.first;
    let end = span.end;
    &times[first..end]
}

// The same of the values.
pub fn values_of<'a>(directory: &[u16], values: &'a [u64], net: Net) -> &'a [u64]
    ensures { result.now ≡ part_of directory.now values.now net.0 }
{
    let span = span_of(directory, net, values.len());
    let first = span.first;
    let end = span.end;
    &values[first..end]
}

// By the net's pair, in an area of this length.
fn span_of(directory: &[u16], net: Net, length: usize) -> Span
    ensures { (result.first ≡ min (first_frame directory.now net.0) length) × (result.end ≡ min (result.first + frame_count directory.now net.0) length) }
{
    let pair = 2 * (net.0 as usize);
    let first = (entry_at(directory, pair) as usize).min(length);
    Span {
        first: first,
        end: (first + entry_at(directory, pair + 1) as usize).min(length),
    }
}
