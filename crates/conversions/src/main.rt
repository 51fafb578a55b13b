// The test program of the converters. Standard input is a stream of cases of any length, standard output has a line a case.
// Numbers of more than one byte are little-endian.
//
// The first byte of a case says which call it is for: `n` for newer, `o` for older, `w` for whichever way the file's bytes 0-1 say.
// Then come the file's length (4), the area's length (2), a rubbish number (1), and the file. The buffers hold a file of 70,000
// bytes and an area of 5,000. Before the call byte k of the area is (rubbish + 7 * k) % 256. The line has what the call answers,
// `written` with the length or `refused` with the number, and a sum of the area's bytes as the call leaves them, as the top of
// crates/testbench/src/lib.rt describes it.
//
// The program stops at the end of the input. At another first byte, at a case that is cut short and at one that its buffers do
// not hold it prints `cut` and stops, and so it does where it cannot read or write on, which standard error then says.
#![tactic(auto)]

ghost use Rattle.std.specs.Prelude.{◌≤◌};

use converter::Conversion;
use std::io::{Eprint, Input, Print};
use testbench::{
    Cut, FromBytes, end_line, read_all, read_first, show_cut, show_number, show_refusal, show_text,
    with_number,
};

#[derive(Clone, Copy)]
enum Call {
    Newer,
    Older,
    Other,
}

// File length, area length, rubbish number.
#[derive(Clone, Copy)]
struct Head([u8; 7]);

impl Head {
    fn file_number(self) -> usize {
        u32::at_byte(&self.0, 0) as usize
    }

    fn area_number(self) -> usize {
        usize::from(numbers::number_at(&self.0, 4))
    }

    // Whether the buffers hold the case. A length that its buffer does not hold is taken for the buffer's own.
    fn is_held(self) -> bool {
        self.file_number() <= 70000 && self.area_number() <= 5000
    }

    fn file_length(self) -> usize
        ensures { result ≤ 70000 }
    {
        self.file_number().min(70000)
    }

    fn area_length(self) -> usize
        ensures { result ≤ 5000 }
    {
        self.area_number().min(5000)
    }

    fn rubbish(self) -> u8 {
        self.0[6]
    }
}

fn main(rt: HostRuntime) {
    if show_cases(&rt).is_err() {
        show_cut(&rt);
    }
}

// No input has as many cases as there are turns.
fn show_cases(rt: &(impl Input + Print + Eprint)) -> Result<(), Cut> {
    for _ in 0..u64::MAX {
        let Some(first) = read_first::<1>(rt)? else {
            break;
        };
        show_case(rt, first[0])?;
    }
    Ok(())
}

// Reads a case behind its first byte, makes its call and prints its line.
fn show_case(rt: &(impl Input + Print + Eprint), first: u8) -> Result<(), Cut> {
    let mut bytes = [0; 7];
    read_all(rt, &mut bytes)?;
    let head = Head(bytes);
    let call = call_of(first).ok_or(Cut)?;
    if !head.is_held() {
        return Err(Cut);
    }
    let mut file = [0; 70000];
    let file = &mut file[..head.file_length()];
    read_all(rt, file)?;
    let mut area = rubbish_area(head.rubbish());
    show_line(rt, call, file, &mut area[..head.area_length()])
}

fn call_of(first: u8) -> Option<Call> {
    match first {
        b'n' => Some(Call::Newer),
        b'o' => Some(Call::Older),
        b'w' => Some(Call::Other),
        _ => None,
    }
}

fn rubbish_area(rubbish: u8) -> [u8; 5000] {
    let mut area = [0; 5000];
    let mut entry = rubbish;
    for byte in &mut area {
        *byte = entry;
        entry = entry.wrapping_add(7);
    }
    area
}

fn show_line(
    rt: &(impl Print + Eprint),
    call: Call,
    file: &[u8],
    area: &mut [u8],
) -> Result<(), Cut> {
    let answer = match call {
        Call::Newer => converter::newer(file, area),
        Call::Older => converter::older(file, area),
        Call::Other => converter::other(file, area),
    };
    show_conversion(rt, answer);
    show_number(
        rt,
        area.iter()
            .fold(0, |sum, byte| with_number(sum, u64::from(*byte))),
    );
    end_line(rt)
}

fn show_conversion(rt: &(impl Print + Eprint), answer: Conversion) {
    match answer {
        Ok(length) => {
            show_text(rt, b"written");
            show_number(rt, u64::from(length));
        }
        Err(refusal) => show_refusal(rt, refusal),
    }
}
