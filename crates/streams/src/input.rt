// What is read from standard input.
ghost use Rattle.std.specs.Prelude.{◌≤◌, length, IfOk, IfErr};
ghost use Rattle.io.specs.Counts.{IsPrefixLen};

use crate::may_try_again;
use std::io::{Eprint, Error, ErrorKind, Input, Read};

// Not all that was asked for could be read: how many bytes had come before, and what the system said.
#[derive(Clone, Copy)]
pub struct Unread {
    pub count: usize,
    pub error: Error,
}

// Fills the bytes from the input, or as many as it has, in as many pieces as they come in, and answers how many came. Where a
// read fails, standard error has said so.
pub fn read_input(rt: &(impl Input + Eprint), bytes: &mut [u8]) -> Result<usize, Unread>
    ensures came { IfOk result (λ n. IsPrefixLen n bytes.new) }
    ensures came_before { IfErr result (λ unread. IsPrefixLen unread.count bytes.new) }
{
    read_pieces(&mut rt.reader(), bytes).inspect_err(|unread| say_unread(rt, &unread.error))
}

// A loop of our own: `read_exact` would give up where a read has to wait, and says nothing of how far it came.
fn read_pieces(reader: &mut impl Read, bytes: &mut [u8]) -> Result<usize, Unread>
    ensures came { IfOk result (λ n. IsPrefixLen n bytes.new) }
    ensures came_before { IfErr result (λ unread. IsPrefixLen unread.count bytes.new) }
{
    let len = bytes.len();
    let mut done = 0;
    // No `for`: how far a piece goes is known once it has come.
    while done < len {
        let count = done;
        let more = read_piece(reader, &mut bytes[done..len]).map_err(|error| Unread {
            count,
            error,
        })?;
        if more == 0 {
            break;
        }
        done += more;
    }
    Ok(done)
}

// One read, made again as long as that may help. No bytes at the end of the input. A proved loop has to end, so the turns are
// counted; no run uses them up.
fn read_piece(reader: &mut impl Read, part: &mut [u8]) -> Result<usize, Error>
    ensures { IfOk result (λ n. n ≤ length part.old) }
{
    for _ in 0..u64::MAX {
        match reader.read(part) {
            Err(error) if may_try_again(&error) => {}
            answer => return answer,
        }
    }
    Err(Error::from(ErrorKind::WouldBlock))
}

// The text stands apart, since it is costly to check where there is much else. A line that cannot be said is lost.
fn say_unread(rt: &impl Eprint, error: &Error) {
    let _ = eprintln!(rt; "cannot read standard input: {error}");
}
