// Where a net's frames lie.
ghost use Rattle.std.specs.Prelude.{◌≤◌, length};

use method::Net;

// A net's part of a list, by its pair in the directory; none where the pair is not there or reaches behind the list's end.
pub fn part_of<'a, T>(directory: &[u16], net: Net, list: &'a [T]) -> &'a [T]
    ensures { length result.now ≤ length list.now }
{
    let pair = 2 * usize::from(net.0);
    let Some([first, count]) = directory.get(pair..pair + 2) else {
        return &[];
    };
    let first = usize::from(*first);
    list.get(first..first + usize::from(*count)).unwrap_or(&[])
}
