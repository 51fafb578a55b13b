// What is written to standard output.
ghost use Rattle.std.specs.Prelude.{◌≤◌, length, IfOk};

use crate::may_try_again;
use std::io::{Eprint, Error, ErrorKind, Print, Result, Stderr};

// Writes all the bytes, in as many pieces as are taken. Where a write fails, standard error has said so; some of the bytes may
// have been written then.
pub fn write_output(rt: &(impl Print + Eprint), bytes: &[u8]) -> Result<()> {
    write_pieces(rt, bytes).inspect_err(|error| say_unwritten(rt, error))
}

// A loop of our own: `write_all` would give up where a write has to wait.
fn write_pieces(rt: &impl Print, bytes: &[u8]) -> Result<()> {
    let len = bytes.len();
    let mut done = 0;
    // No `for`: how far a piece goes is known once it has been taken.
    while done < len {
        let more = write_piece(rt, &bytes[done..len])?;
        if more == 0 {
            return Err(Error::from(ErrorKind::WriteZero));
        }
        done += more;
    }
    Ok(())
}

// One write, made again as long as that may help: how many bytes were taken. The turns are counted as those of a read are.
fn write_piece(rt: &impl Print, part: &[u8]) -> Result<usize>
    ensures { IfOk result (λ n. n ≤ length part.now) }
{
    for _ in 0..u64::MAX {
        match rt.write_some(part) {
            Err(error) if may_try_again(&error) => {}
            answer => return answer,
        }
    }
    Err(Error::from(ErrorKind::WouldBlock))
}

// A line that cannot be said is lost.
fn say_unwritten(rt: &impl Eprint, error: &Error) {
    let _ = eprintln!(rt; "cannot write standard output: {error}");
}

// Writes the number in decimal, and answers as write_output does.
pub fn write_decimal(rt: &(impl Print + Eprint), n: u64) -> Result<()> {
    let mut text = [0u8; 20];
    let k = io::decimal(n, &mut text);
    write_output(rt, &text[..k])
}

// Writes the number in hexadecimal, with zeros in front up to the width, and answers as write_output does.
pub fn write_hex(rt: &(impl Print + Eprint), n: u64, width: usize) -> Result<()> {
    let mut text = [0u8; 16];
    let k = io::hex(n, width, &mut text);
    write_output(rt, &text[..k])
}

// Says a line to whoever watches, on standard error. One that cannot be said is lost.
pub fn say(stderr: Stderr, line: &[u8]) {
    let _ = stderr.write_all(line);
}
