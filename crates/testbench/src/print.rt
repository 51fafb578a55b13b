// Texts and numbers in print. The texts stand here, since a text is costly to check where there is much else. Where one cannot be
// written, standard error says so, and what follows it is tried all the same.
use crate::input::Cut;
use std::io::{Eprint, Print};

pub fn show_text(rt: &(impl Print + Eprint), text: &[u8]) {
    let _ = streams::write_output(rt, text);
}

pub fn show_decimal(rt: &(impl Print + Eprint), n: u64) {
    let _ = streams::write_decimal(rt, n);
}

// In 16 hexadecimal digits.
pub fn show_word(rt: &(impl Print + Eprint), word: u64) {
    let _ = streams::write_hex(rt, word, 16);
}

// Behind a space.
pub fn show_number(rt: &(impl Print + Eprint), n: u64) {
    show_text(rt, b" ");
    show_decimal(rt, n);
}

pub fn show_refused(rt: &(impl Print + Eprint), number: u8) {
    show_text(rt, b"refused");
    show_number(rt, u64::from(number));
}

// Between two parts of a line.
pub fn show_semicolon(rt: &(impl Print + Eprint)) {
    show_text(rt, b"; ");
}

// The run stops where a line cannot be written to its end.
pub fn end_line(rt: &(impl Print + Eprint)) -> Result<(), Cut> {
    streams::write_output(rt, b"\n")?;
    Ok(())
}

// For a run that ends before its input does.
pub fn show_cut(rt: &(impl Print + Eprint)) {
    show_text(rt, b"cut\n");
}
