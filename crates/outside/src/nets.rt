// A net's changes in all lanes, printed.
use method::{Net, Tick};
use std::io::{Eprint, Print};
use testbench::{
    Cut, end_line, part_of, show_decimal, show_number, show_semicolon, show_text, show_word,
};

// Prints a line a net.
pub(crate) fn show_nets(
    rt: &(impl Print + Eprint),
    directory: &[u16],
    times: &[Tick],
    values: &[u64],
    nets: u16,
) -> Result<(), Cut> {
    for net in 0..nets {
        let times = part_of(directory, Net(net), times);
        let values = part_of(directory, Net(net), values);
        show_decimal(rt, u64::from(net));
        show_changes(rt, times, values);
        show_semicolon(rt);
        show_decimal(rt, changes(times, values));
        end_line(rt)?;
    }
    Ok(())
}

// Prints the net's first frame, and each whose word is another than that of the frame before.
fn show_changes(rt: &(impl Print + Eprint), times: &[Tick], values: &[u64]) {
    let mut before = None;
    for (time, word) in times.iter().zip(values) {
        if before != Some(*word) {
            show_frame(rt, *time, *word);
        }
        before = Some(*word);
    }
}

fn show_frame(rt: &(impl Print + Eprint), time: Tick, word: u64) {
    show_number(rt, u64::from(time));
    show_text(rt, b"=");
    show_word(rt, word);
}

// How often the lanes change, all taken together. A refusal counts 65,535, more than all lanes of a net can change, so that it
// shows.
fn changes(times: &[Tick], values: &[u64]) -> u64 {
    let mut sum = 0;
    for lane in 0..64 {
        sum += u64::from(looks::count(times, values, lane).unwrap_or(65535));
    }
    sum
}
