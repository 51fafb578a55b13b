// The test program of Level and Count on parts of a net that no run made. Standard input is a stream of cases of any length,
// standard output has a line a case. Numbers of more than one byte are little-endian.
//
// A case begins with 7 bytes: how many times and how many values (1 each), a lane (1) and a time (4). Then come the times (4
// each) and the values (8 each). The line has what Level answers, the level, when its frame began, and when the next begins, or
// `no end`; and what Count answers, a number; or for each `refused` with the number.
//
// The program stops at the end of the input. At a case that is cut short and at one that its buffers do not hold (80 times or
// values are the most) it prints `cut` and stops, and so it does where it cannot read or write on, which standard error then
// says.
#![tactic(auto)]

use method::{Tick, Time};
use std::io::{Eprint, Input, Print};
use testbench::{
    Cut, FromBytes, end_line, read_first, read_list, show_counted, show_cut, show_seen,
    show_semicolon,
};

fn main(rt: HostRuntime) {
    if show_cases(&rt).is_err() {
        show_cut(&rt);
    }
}

// No input has as many cases as there are turns: each takes 7 bytes or more.
fn show_cases(rt: &(impl Input + Print + Eprint)) -> Result<(), Cut> {
    for _ in 0..u64::MAX {
        let Some(head) = read_first(rt)? else {
            break;
        };
        show_case(rt, head)?;
    }
    Ok(())
}

fn show_case(rt: &(impl Input + Print + Eprint), head: [u8; 7]) -> Result<(), Cut> {
    if 80 < head[0] || 80 < head[1] {
        return Err(Cut);
    }
    let mut times: [Tick; 80] = [0; 80];
    let mut values = [0u64; 80];
    let times = &mut times[..usize::from(head[0])];
    let values = &mut values[..usize::from(head[1])];
    let timed = read_list(rt, times);
    let valued = read_list(rt, values);
    timed.and(valued)?;
    let lane = head[2];
    let time = Time(Tick::at_byte(&head, 3));
    show_seen(rt, looks::level(times, values, lane, time));
    show_semicolon(rt);
    show_counted(rt, looks::count(times, values, lane));
    end_line(rt)
}
