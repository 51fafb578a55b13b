// The loads of a case: how many numbers they are, and the numbers. As in a circuit's head, a count that its buffer does not hold is
// taken for the buffer's length, and `is_held` says whether there is one.
ghost use Rattle.std.specs.Prelude.{◌≤◌};

use std::io::{Eprint, Input};
use std::num::f64_from_bits_with_nan;
use testbench::{Cut, read_all};

// The lane, how many case bytes, and how many charges.
#[derive(Clone, Copy)]
pub(crate) struct First(pub(crate) [u8; 5]);

impl First {
    pub(crate) fn lane(self) -> u8 {
        self.0[0]
    }

    // Whether the buffers hold the loads.
    fn is_held(self) -> bool {
        numbers::number_at(&self.0, 1) <= 400 && numbers::number_at(&self.0, 3) <= 800
    }

    fn cases_length(self) -> usize
        ensures { result ≤ 400 }
    {
        usize::from(numbers::number_at(&self.0, 1)).min(400)
    }

    fn charges_length(self) -> usize
        ensures { result ≤ 800 }
    {
        usize::from(numbers::number_at(&self.0, 3)).min(800)
    }
}

// The case bytes and the charges: the input had them all, and the buffers hold them.
#[derive(Drop)]
pub(crate) struct Loads {
    pub(crate) first: First,
    cases: [u8; 400],
    charges: [f64; 800],
}

impl Loads {
    pub(crate) fn cases(&self) -> &[u8] {
        &self.cases[..self.first.cases_length()]
    }

    pub(crate) fn charges(&self) -> &[f64] {
        &self.charges[..self.first.charges_length()]
    }
}

// All of the loads is asked for before any of it is judged.
pub(crate) fn read_loads(rt: &(impl Input + Eprint), first: First) -> Result<Loads, Cut> {
    let mut cases = [0; 400];
    let filled = read_all(rt, &mut cases[..first.cases_length()]);
    let mut bytes = [0; 6400];
    let charged = read_all(rt, &mut bytes[..8 * first.charges_length()]);
    filled.and(charged)?;
    if !first.is_held() {
        return Err(Cut);
    }
    Ok(Loads {
        first,
        cases,
        charges: charges_of(&bytes),
    })
}

fn charges_of(bytes: &[u8; 6400]) -> [f64; 800] {
    let mut charges = [0.0; 800];
    for (charge, bits) in charges.iter_mut().zip(bytes.chunks(8)) {
        *charge = f64_from_bits_with_nan(numbers::word_at_byte(bits, 0));
    }
    charges
}
