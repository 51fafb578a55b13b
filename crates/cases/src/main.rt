// The test program of the reader, Plan and Run, and of Level and Count after a run. Standard input is a stream of cases of any
// length, standard output has a line a case. Numbers of more than one byte are little-endian.
//
// A case begins with a net (2) and a time (4). Then comes a circuit with the caller's limit, its change times and its words, as
// the top of crates/testbench/src/lib.rt describes it. The line has, with a semicolon between them:
// - what the reader answers, `accepted` with I and G;
// - what Plan answers, `planned` with the frame total, the fan-in total and the last potential time, and behind it a sum of
//   each of its four areas as it leaves them;
// - what Run's questions 1 to 11 and 20 answer, as for the reader;
// - what Run answers, as for Plan, and a sum of each of the five areas as it leaves them;
// - where there was a run, what is seen of the net in its parts of the times and the values as Run left them: the level at
//   the time in all lanes, as 16 hexadecimal digits in which bit L is lane L; when the frame began that Level names in lane
//   63, and when the next begins, or `no end`; and a sum of Count in lanes 0 to 63.
// In each place `refused` with its number stands for a refusal. How areas are filled before a call and how numbers are summed
// stands in the same place.
//
// The program stops at the end of the input. At a case that is cut short and at one that its buffers do not hold it prints
// `cut` and stops, and so it does where it cannot read or write on, which standard error then says. Level and Count on parts
// that no run made have a program of their own, parts, and so has Mark, marks.
#![tactic(auto)]

mod nets;

use nets::{Look, look_of, show_net};
use std::io::{Eprint, Input, Print};
use testbench::{
    Areas, Case, Cut, end_line, read_case, read_first, show_cut, show_plan_sums, show_planning,
    show_reading, show_semicolon, show_sums,
};

fn main(rt: HostRuntime) {
    if show_cases(&rt).is_err() {
        show_cut(&rt);
    }
}

// No input has as many cases as there are turns: each takes 6 bytes or more.
fn show_cases(rt: &(impl Input + Print + Eprint)) -> Result<(), Cut> {
    for _ in 0..u64::MAX {
        let Some(look) = read_first(rt)? else {
            break;
        };
        let case = read_case(rt)?;
        show_case(rt, &case, look_of(look))?;
    }
    Ok(())
}

// The calls, each in areas of its own.
fn show_case(rt: &(impl Print + Eprint), case: &Case, look: Look) -> Result<(), Cut> {
    show_reading(rt, circuit::read(case.file()));
    show_semicolon(rt);
    show_plan(rt, case);
    show_semicolon(rt);
    show_questions(rt, case);
    show_semicolon(rt);
    show_run(rt, case, look);
    end_line(rt)
}

// Plan is not lent the values.
fn show_plan(rt: &(impl Print + Eprint), case: &Case) {
    let head = case.head;
    let mut areas = Areas::rubbish(head.rubbish());
    let answer = planner::plan(
        case.task(),
        head.limit(),
        &mut areas.directory[..head.directory_length()],
        &mut areas.times[..head.times_length()],
        &mut areas.inertial[..head.inertial_length()],
        &mut areas.fanins[..head.fanins_length()],
    );
    show_planning(rt, answer);
    show_plan_sums(rt, head, &areas);
}

// The questions are lent the areas to be read only, so that there is nothing left to be seen in them.
fn show_questions(rt: &(impl Print + Eprint), case: &Case) {
    let head = case.head;
    let areas = Areas::zeros();
    let answer = engine::questions(
        case.task(),
        &areas.directory[..head.directory_length()],
        &areas.times[..head.times_length()],
        &areas.inertial[..head.inertial_length()],
        &areas.fanins[..head.fanins_length()],
        &areas.values[..head.values_length()],
        case.words(),
    );
    show_reading(rt, answer);
}

// What Run answers, the sums of what it left, and where there was a run what is seen of the net.
fn show_run(rt: &(impl Print + Eprint), case: &Case, look: Look) {
    let head = case.head;
    let mut areas = Areas::rubbish(head.rubbish());
    let answer = engine::run(
        case.task(),
        head.limit(),
        &mut areas.directory[..head.directory_length()],
        &mut areas.times[..head.times_length()],
        &mut areas.inertial[..head.inertial_length()],
        &mut areas.fanins[..head.fanins_length()],
        &mut areas.values[..head.values_length()],
        case.words(),
    );
    show_planning(rt, answer);
    show_sums(rt, head, &areas);
    if answer.is_ok() {
        show_semicolon(rt);
        show_net(rt, head, &areas, look);
    }
}
