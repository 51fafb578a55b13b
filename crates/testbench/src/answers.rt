// What the calls answer, in print.
use crate::print::{show_decimal, show_number, show_refused, show_text};
use circuit::Reading;
use limiting::Planning;
use looks::{Counted, Seen, Sight};
use method::{Refusal, Totals};
use std::io::{Eprint, Print};

// What the reader or Run's questions answer.
pub fn show_reading(rt: &(impl Print + Eprint), answer: Reading) {
    match answer {
        Ok(read) => {
            show_text(rt, b"accepted");
            show_number(rt, u64::from(read.inputs));
            show_number(rt, u64::from(read.gates));
        }
        Err(refusal) => show_refusal(rt, refusal),
    }
}

// What a call that plans answers.
pub fn show_planning(rt: &(impl Print + Eprint), answer: Planning) {
    match answer {
        Ok(totals) => show_totals(rt, totals),
        Err(refusal) => show_refusal(rt, refusal),
    }
}

// The frame total, the fan-in total and the last potential time.
pub fn show_totals(rt: &(impl Print + Eprint), totals: Totals) {
    show_text(rt, b"planned");
    show_number(rt, u64::from(totals.frames));
    show_number(rt, u64::from(totals.fanins));
    show_number(rt, u64::from(totals.last.0));
}

// What Level answers: the level, and its frame.
pub fn show_seen(rt: &(impl Print + Eprint), answer: Seen) {
    match answer {
        Ok(seen) => {
            show_decimal(rt, u64::from(seen.level));
            show_frame(rt, seen);
        }
        Err(refusal) => show_refusal(rt, refusal),
    }
}

// When the frame began, and when the next begins.
pub fn show_frame(rt: &(impl Print + Eprint), seen: Sight) {
    show_number(rt, u64::from(seen.began.0));
    match seen.until {
        Some(next) => show_number(rt, u64::from(next.0)),
        None => show_text(rt, b" no end"),
    }
}

// What Count answers.
pub fn show_counted(rt: &(impl Print + Eprint), answer: Counted) {
    match answer {
        Ok(changes) => show_decimal(rt, u64::from(changes)),
        Err(refusal) => show_refusal(rt, refusal),
    }
}

// A refusal, by its number.
pub fn show_refusal(rt: &(impl Print + Eprint), refusal: Refusal) {
    show_refused(rt, u8::from(refusal));
}
