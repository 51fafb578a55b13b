// The program that prints a circuit's sizes, for whoever is to lend areas that just fit. It reads what the wave program reads and
// takes each input to change once, at time 1, as that one does; it does not look at the words. It prints the frame total, the
// fan-in total, the last potential time and the lengths of the areas, or `refused` and a number: 0 where the input is not whole,
// as the wave program says, and else what Size answers under the largest limit. Where the input cannot be read it prints nothing,
// and standard error says why.
#![tactic(auto)]

mod print;

use circuit::Task;
use method::Tick;
use numbers::number_at;
use print::{show_refused, show_sizes};
use sizes::Planning;
use std::io::{Eprint, Print, Result};

const MOST_BYTES: usize = 4096;

// Every frame total that Size can accept is within this limit.
const FULL_COURSE: u16 = 2048;

// One byte more than an input may have is read, which is enough to tell. A failure has been said on standard error.
fn main(rt: HostRuntime) {
    let mut input = [0u8; 4097];
    if let Ok(n) = streams::read_input(&rt, &mut input) {
        let _ = measure(&rt, &input[..n]);
    }
}

// Prints the answer to the input.
fn measure(rt: &(impl Print + Eprint), input: &[u8]) -> Result<()> {
    match file_in(input) {
        Some(file) => measure_circuit(rt, file),
        None => show_refused(rt, 0),
    }
}

// The circuit file of an input that is whole and not too long.
fn file_in(input: &[u8]) -> Option<&[u8]> {
    if input.len() < 2 || MOST_BYTES < input.len() {
        return None;
    }
    input.get(2..2 + usize::from(number_at(input, 0)))
}

// The same for a circuit file.
fn measure_circuit(rt: &(impl Print + Eprint), file: &[u8]) -> Result<()> {
    match circuit::read(file) {
        Ok(nets) => match size_once(file, usize::from(nets.inputs)) {
            Ok(totals) => show_sizes(rt, totals, nets),
            Err(refusal) => show_refused(rt, u8::from(refusal)),
        },
        Err(refusal) => show_refused(rt, u8::from(refusal)),
    }
}

// What Size answers where there are so many inputs, and each changes once, at 1. No accepted circuit has more than 32; to take no
// more is less to show than that the reader asked for it.
fn size_once(file: &[u8], inputs: usize) -> Planning {
    let counts = [1u8; 32];
    let changes: [Tick; 32] = [1; 32];
    let n = inputs.min(32);
    let task = Task {
        file,
        counts: &counts[..n],
        changes: &changes[..n],
    };
    sizes::size(task, FULL_COURSE)
}
