// The test program of Size and the fitted Run. Standard input is a stream of cases of any length, standard output has a line a
// case.
//
// A case is a circuit with the caller's limit, its change times and its words, as the top of crates/testbench/src/lib.rt describes
// it; its lengths are those of the areas that the fitted Run is lent. The line has, with a semicolon between them:
// - what Size answers, `planned` with the frame total, the fan-in total and the last potential time, or `refused` with the number;
// - what the fitted Run answers, in the same words, and behind it a sum of each of the five areas as it leaves them.
// How areas are filled before the call and how they are summed stands in the same place.
//
// The program stops at the end of the input. At a case that is cut short and at one that its buffers do not hold it prints
// `cut` and stops, and so it does where it cannot read or write on, which standard error then says.
#![tactic(auto)]

use std::io::{Eprint, Input, Print};
use testbench::{
    Areas, Case, Cut, Head, end_line, read_behind, show_cut, show_planning, show_semicolon,
    show_sums,
};

fn main(rt: HostRuntime) {
    if show_cases(&rt).is_err() {
        show_cut(&rt);
    }
}

// No input has as many cases as there are turns.
fn show_cases(rt: &(impl Input + Print + Eprint)) -> Result<(), Cut> {
    for _ in 0..u64::MAX {
        let mut head = [0; 24];
        let count = streams::read_input(rt, &mut head)?;
        if count == 0 {
            break;
        }
        let case = read_behind(rt, Head(head));
        if count < 24 {
            return Err(Cut);
        }
        show_case(rt, &case?)?;
    }
    Ok(())
}

fn show_case(rt: &(impl Print + Eprint), case: &Case) -> Result<(), Cut> {
    let limit = case.head.limit();
    show_planning(rt, sizes::size(case.task(), limit));
    show_semicolon(rt);
    show_run(rt, case);
    end_line(rt)
}

fn show_run(rt: &(impl Print + Eprint), case: &Case) {
    let head = case.head;
    let mut areas = Areas::rubbish(head.rubbish());
    let answer = sizes::run_fitted(
        case.task(),
        head.limit(),
        &mut areas.directory[..head.directory_length()],
        &mut areas.times[..head.times_length()],
        &mut areas.inertial[..head.inertial_length()],
        &mut areas.fanins[..head.fanins_length()],
        &mut areas.values[..head.values_length()],
        case.words(),
    );
    show_planning(rt, answer);
    show_sums(rt, head, &areas);
}
