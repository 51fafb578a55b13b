// The program that turns a circuit file into the other edition: it reads a file from standard input and writes it in the edition
// that it is not of, or `refused` and a number. Standard error says which way it went. Where the input cannot be read it writes
// nothing, and standard error says why.
#![tactic(auto)]

use std::io::{Eprint, Print, Stderr};

// Offset and length of a record add up to 131,070 at most, so a longer file is refused; one byte more is read, which is enough to
// tell (`Long` in converter/specs/Conversions).
fn main(rt: HostRuntime) {
    let mut input = [0u8; 131071];
    if let Ok(n) = streams::read_input(&rt, &mut input) {
        convert(&rt, rt.stderr(), &input[..n]);
    }
}

// Writes the file in the other edition, or the number of the refusal.
fn convert(rt: &(impl Print + Eprint), stderr: Stderr, file: &[u8]) {
    let mut area = [0u8; filing::AREA_LENGTH];
    say_way(stderr, converter::is_present(file));
    match converter::other(file, &mut area) {
        Ok(length) => {
            let n = length as usize;
            let _ = streams::write_output(rt, &area[..n]);
        }
        Err(refusal) => show_refused(rt, u8::from(refusal)),
    }
}

fn say_way(stderr: Stderr, from_present: bool) {
    if from_present {
        streams::say(
            stderr,
            b"from the present edition (picoseconds) to the former one\n",
        );
    } else {
        streams::say(
            stderr,
            b"from the former edition to the present one (picoseconds)\n",
        );
    }
}

fn show_refused(rt: &(impl Print + Eprint), number: u8) {
    let _ = streams::write_output(rt, b"refused ");
    let _ = streams::write_decimal(rt, u64::from(number));
    let _ = streams::write_output(rt, b"\n");
}
