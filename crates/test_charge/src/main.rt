// The test program of the charge call. Standard input is a stream of cases of any length, standard output has a line a case.
// Numbers of more than one byte are little-endian.
//
// A case begins with 5 bytes: the lane (1), and how many case bytes (2) and charges (2) there are. Then come a circuit with the
// caller's limit, its change times and its words, as the top of crates/testbench/src/lib.rt describes it, the case bytes, 0 for a
// net with one charge for any change and 1 for one with a charge for rising and one for falling, and the charges, each as the 8
// bytes of the float's bits. The bits of any NaN stand for a NaN. The line has what the call answers and behind it a sum of each of
// the five areas as the call leaves them. An answer is `planned` with the frame total, the fan-in total, the last potential time
// and the charge drawn, as the 16 hexadecimal digits of its bits, or `refused` with the number. Where the case bytes and the
// charges are no list of loads, the number is 100, and the call is not made. How areas are filled before the call and how they are
// summed stands in the same place.
//
// The program stops at the end of the input. At a case that is cut short and at one that its buffers do not hold (400 case bytes
// and 800 charges are the most) it prints `cut` and stops, and so it does where it cannot read or write on, which standard error
// then says.
#![tactic(auto)]

mod loads;
mod print;

use charge_numbers::{charge_on, numbers_suit};
use loads::{First, Loads, read_loads};
use print::show_charged;
use std::io::{Eprint, Input, Print};
use testbench::{Areas, Case, Cut, end_line, read_case, show_cut, show_refused, show_sums};

fn main(rt: HostRuntime) {
    if show_cases(&rt).is_err() {
        show_cut(&rt);
    }
}

// No input has as many cases as there are turns.
fn show_cases(rt: &(impl Input + Print + Eprint)) -> Result<(), Cut> {
    for _ in 0..u64::MAX {
        let mut first = [0; 5];
        let count = streams::read_input(rt, &mut first)?;
        if count == 0 {
            break;
        }
        let case = read_case(rt);
        let loads = read_loads(rt, First(first));
        if count < 5 {
            return Err(Cut);
        }
        show_charge(rt, &case?, &loads?);
        end_line(rt)?;
    }
    Ok(())
}

// The call, or 100 where the numbers are no list of loads.
fn show_charge(rt: &(impl Print + Eprint), case: &Case, loads: &Loads) {
    let head = case.head;
    let mut areas = Areas::rubbish(head.rubbish());
    if numbers_suit(loads.cases(), loads.charges()) {
        let answer = charge_on(
            case.task(),
            head.limit(),
            &mut areas.directory[..head.directory_length()],
            &mut areas.times[..head.times_length()],
            &mut areas.inertial[..head.inertial_length()],
            &mut areas.fanins[..head.fanins_length()],
            &mut areas.values[..head.values_length()],
            case.words(),
            loads.cases(),
            loads.charges(),
            loads.first.lane(),
        );
        show_charged(rt, answer);
    } else {
        show_refused(rt, 100);
    }
    show_sums(rt, head, &areas);
}
