// The test program of Mark. Standard input is a stream of cases of any length, standard output has a line a case. Numbers of
// more than one byte are little-endian.
//
// The first byte of a case says how many expectations it has, 12 at most. Then come a circuit with the caller's limit, its
// change times and its words, as the top of crates/testbench/src/lib.rt describes it, and the expectations, each as net (2),
// lane (1), from (4), to (4) and level (1). The line has what Mark answers, `all met`, `unmet` with the position and the
// frame, or `refused` with the number, and behind it a sum of each of the five areas as Mark leaves them. How areas are
// filled before the call and how they are summed stands in the same place.
//
// The program stops at the end of the input. At a case that is cut short and at one that its buffers do not hold it prints
// `cut` and stops, and so it does where it cannot read or write on, which standard error then says.
#![tactic(auto)]

ghost use Rattle.std.specs.Prelude.{◌≤◌, length};

mod listing;

use listing::{list_of, show_marking};
use std::io::{Eprint, Input, Print};
use testbench::{Areas, Case, Cut, end_line, read_all, read_case, read_first, show_cut, show_sums};

fn main(rt: HostRuntime) {
    if show_cases(&rt).is_err() {
        show_cut(&rt);
    }
}

// No input has as many cases as there are turns.
fn show_cases(rt: &(impl Input + Print + Eprint)) -> Result<(), Cut> {
    for _ in 0..u64::MAX {
        let Some(expected) = read_first::<1>(rt)? else {
            break;
        };
        show_case(rt, expected[0])?;
    }
    Ok(())
}

fn show_case(rt: &(impl Input + Print + Eprint), expected: u8) -> Result<(), Cut> {
    if 12 < expected {
        return Err(Cut);
    }
    let case = read_case(rt)?;
    let mut records = [0; 144];
    let records = &mut records[..12 * usize::from(expected)];
    read_all(rt, records)?;
    show_mark(rt, &case, records);
    end_line(rt)
}

fn show_mark(rt: &(impl Print + Eprint), case: &Case, records: &[u8])
    requires { length records.now ≤ 144 }
{
    let head = case.head;
    let mut areas = Areas::rubbish(head.rubbish());
    let answer = marking::mark(
        case.task(),
        head.limit(),
        &mut areas.directory[..head.directory_length()],
        &mut areas.times[..head.times_length()],
        &mut areas.inertial[..head.inertial_length()],
        &mut areas.fanins[..head.fanins_length()],
        &mut areas.values[..head.values_length()],
        case.words(),
        &list_of(records)[..records.len() / 12],
    );
    show_marking(rt, answer);
    show_sums(rt, head, &areas);
}
