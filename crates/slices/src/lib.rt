// Storing and reading in a lent area, a search in a row of numbers, tests, and the later of two times.
#![tactic(auto)]

ghost use Rattle.std.specs.Prelude.{◌≡◌, cond, ◌+◌, max, leb, drop, get_or};
ghost use Rattle.std.proofs.lemmas.List.Edits.{sets};
ghost use Rattle.lists.specs.Ladder.{between};
ghost use Rattle.lists.specs.Front.{leading};

use lists::{Number, Tick};

// Stores the row of times into the area from `at` on, as far as the area reaches.
pub fn store(area: &mut [Tick], at: usize, row: &[Tick])
    ensures { area.new ≡ sets area.old at row.now }
{
    if area.len() <= at {
        return;
    }
    let count = row.len().min(area.len() - at);
    // No `copy_from_slice`: it would need `memmove`, which the archive for C asks nobody for, and most rows are short.
    for k in 0..count {
        area[at + k] = row[k];
    }
}

// An entry of an area or a list; 0 beyond its end.
pub fn entry_at<T: Number>(list: &[T], place: usize) -> T
    ensures { result ≡ get_or list.now place T.zero }
{
    list.get(place).copied().unwrap_or(T::from(0))
}

// The first place from `from` on whose time is above the limit; where there is none, the row's end, or `from` beyond it.
pub fn first_above(row: &[Tick], from: usize, limit: Tick) -> usize
    ensures { result ≡ from + leading limit (drop from row.now) }
{
    let mut place = from;
    // One way out, by `break`: with a `return` in the loop the callers' loops take more jumps.
    for k in from..row.len() {
        if limit < row[k] {
            break;
        }
        place = k + 1;
    }
    place
}

// Whether n is from least to most.
pub fn is_between<T: Number>(least: T, most: T, n: T) -> bool
    ensures { result ≡ between (T.value least) (T.value most) (T.value n) }
{
    (least..=most).contains(&n)
}

// 1 if a time is not above the limit, else 0: a number to add, where a jump would often be guessed wrong.
pub fn not_above(t: Tick, limit: Tick) -> usize
    ensures { result ≡ cond (leb t limit) 1 0 }
{
    (t <= limit) as usize
}

// The later of two times.
pub fn later_of(a: Tick, b: Tick) -> Tick
    ensures { result ≡ max a b }
{
    a.max(b)
}
