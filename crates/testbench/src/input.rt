// What is read from the input.
ghost use Rattle.std.specs.Prelude.{◌≤◌};

use std::io::{Eprint, Error, Input};
use streams::Unread;

// Why a run ends before its input does: a case is cut short, the buffers do not hold it, or it could not be read or its line not
// be written, which standard error has said.
#[derive(Clone, Copy)]
pub struct Cut;

impl From<Error> for Cut {
    fn from(_error: Error) -> Cut {
        Cut
    }
}

impl From<Unread> for Cut {
    fn from(_unread: Unread) -> Cut {
        Cut
    }
}

// Fills the bytes from the input.
pub fn read_all(rt: &(impl Input + Eprint), bytes: &mut [u8]) -> Result<(), Cut> {
    let wanted = bytes.len();
    if streams::read_input(rt, bytes)? < wanted {
        return Err(Cut);
    }
    Ok(())
}

// The first bytes of a case. None where the input ends before it.
pub fn read_first<const N: usize>(rt: &(impl Input + Eprint)) -> Result<Option<[u8; N]>, Cut> {
    let mut first = [0; N];
    match streams::read_input(rt, &mut first)? {
        0 => Ok(None),
        count if count < N => Err(Cut),
        _ => Ok(Some(first)),
    }
}

// A number as lists have it.
pub trait FromBytes: Copy {
    // How many bytes it has.
    fn width() -> usize
        ensures { result ≤ 8 };

    // The number whose bytes start at a place; past the end of the bytes they are 0.
    fn at_byte(bytes: &[u8], at: usize) -> Self;
}

impl FromBytes for u32 {
    fn width() -> usize {
        4
    }

    fn at_byte(bytes: &[u8], at: usize) -> u32 {
        (numbers::word_at_byte(bytes, at) % 4294967296) as u32
    }
}

impl FromBytes for u64 {
    fn width() -> usize {
        8
    }

    fn at_byte(bytes: &[u8], at: usize) -> u64 {
        numbers::word_at_byte(bytes, at)
    }
}

// Fills the list from the input, as far as its first 400 numbers; those behind them are 0.
pub fn read_list<T: FromBytes>(rt: &(impl Input + Eprint), list: &mut [T]) -> Result<(), Cut> {
    let mut bytes = [0; 3200];
    let wanted = T::width() * list.len().min(400);
    let read = read_all(rt, &mut bytes[..wanted]);
    fill_list(list, &bytes[..wanted]);
    read
}

// Fills the list from the bytes; numbers behind their end are 0.
pub fn fill_list<T: FromBytes>(list: &mut [T], bytes: &[u8]) {
    let width = T::width();
    for (k, number) in list.iter_mut().enumerate() {
        *number = T::at_byte(bytes, width.saturating_mul(k));
    }
}
