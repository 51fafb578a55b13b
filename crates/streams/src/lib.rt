// Standard input and standard output of the programs. A call that a signal interrupts, or that would have to wait on a
// non-blocking descriptor, is made again. Where one fails, a line on standard error says so and why. What the system gives and
// takes is known by its length alone, so nothing is promised of the bytes.
#![tactic(auto)]

mod input;
mod output;

pub use input::{Unread, read_input};
pub use output::{say, write_decimal, write_hex, write_output};
use std::io::{Error, ErrorKind};
use std::thread::yield_now;

// Whether the call that has failed so is to be made again. Where it would have to wait, others run first.
fn may_try_again(error: &Error) -> bool {
    match error.kind() {
        ErrorKind::WouldBlock => {
            yield_now();
            true
        }
        ErrorKind::Interrupted => true,
        _ => false,
    }
}
