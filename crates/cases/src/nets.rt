// What Level and Count see of a net.
use looks::Seen;
use method::{Net, Tick, Time};
use std::io::{Eprint, Print};
use testbench::{
    Areas, FromBytes, Head, part_of, show_frame, show_number, show_refusal, show_word, with_number,
};

// The net that is looked at after a run, and the time at which its levels are asked for.
#[derive(Clone, Copy)]
pub(crate) struct Look {
    net: Net,
    time: Time,
}

pub(crate) fn look_of(bytes: [u8; 6]) -> Look {
    Look {
        net: Net(numbers::number_at(&bytes, 0)),
        time: Time(Tick::at_byte(&bytes, 2)),
    }
}

// Prints what is seen of the net after a run.
pub(crate) fn show_net(rt: &(impl Print + Eprint), head: Head, areas: &Areas, look: Look) {
    let directory = &areas.directory[..head.directory_length()];
    show_lanes(
        rt,
        part_of(directory, look.net, &areas.times[..2048]),
        part_of(directory, look.net, &areas.values[..2048]),
        look.time,
    );
}

// Prints the level at the time in all lanes, the frame that lane 63 has there, and a sum of the lanes' counts.
fn show_lanes(rt: &(impl Print + Eprint), times: &[Tick], values: &[u64], time: Time) {
    match looks::level(times, values, 63, time) {
        Ok(seen) => {
            show_word(rt, levels_of(times, values, time));
            show_frame(rt, seen);
            show_number(rt, counts_of(times, values));
        }
        Err(refusal) => show_refusal(rt, refusal),
    }
}

// Bit L is the level of lane L.
fn levels_of(times: &[Tick], values: &[u64], time: Time) -> u64 {
    (0..64).rev().fold(0, |word, lane| {
        word << 1 | u64::from(is_high(looks::level(times, values, lane, time)))
    })
}

fn is_high(answer: Seen) -> bool {
    answer.is_ok_and(|seen| seen.level)
}

fn counts_of(times: &[Tick], values: &[u64]) -> u64 {
    (0..64).fold(0, |sum, lane| {
        let changes = looks::count(times, values, lane);
        with_number(sum, u64::from(changes.unwrap_or(0)))
    })
}
