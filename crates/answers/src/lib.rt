// A call's answer in numbers, as C has it: 0, with the answer's own numbers in a lent array; or the refusal's number, and the array stays
// as it was.
#![tactic(auto)]

ghost use Rattle.std.specs.Prelude.{◌≡◌};
ghost use Rattle.method.specs.Refusals.{first_of};
ghost use Rattle.looks.specs.Sight.{sight_on_paper};
ghost use Rattle.expectations.specs.Verdict.{verdict_on_paper};
ghost use Rattle.answers.specs.Numbers.{given, net_numbers, total_numbers, sight_numbers, one_number, verdict_numbers};

use circuit::InputsAndGates;
use expectations::Unmet;
use looks::Sight;
use method::{Refusal, Totals};

// An answer that has numbers of its own, as many as this array holds.
pub trait InNumbers<Array> {
    // These numbers, in order.
    ghost own: { Self → Array };

    fn in_numbers(self) -> Array
        ensures { result ≡ own self };
}

// 0, with the answer's own numbers in the array; or the number of the first "no", and the array as it was.
pub fn give<A: InNumbers<Array>, Array: Copy>(answer: Result<A, Refusal>, array: &mut Array) -> u32
    ensures number { result ≡ first_of answer }
    ensures array { array.new ≡ given A.own answer array.old }
{
    match answer {
        Err(refusal) => refusal as u32,
        Ok(own) => {
            *array = own.in_numbers();
            0
        }
    }
}

// I and G.
impl InNumbers<[u32; 2]> for InputsAndGates {
    ghost own = { net_numbers };

    #[tactic(auto, unfolding(crate::specs::Numbers::net_numbers))]
    fn in_numbers(self) -> [u32; 2] {
        [self.inputs as u32, self.gates as u32]
    }
}

// The frames, the fan-in entries and the last potential time.
impl InNumbers<[u32; 3]> for Totals {
    ghost own = { total_numbers };

    #[tactic(auto, unfolding(crate::specs::Numbers::total_numbers))]
    fn in_numbers(self) -> [u32; 3] {
        let last = self.last;
        [self.frames as u32, self.fanins as u32, last.0]
    }
}

// The level, the frame's begin and its end; 0, at which no frame ends, where it has none.
impl InNumbers<[u32; 3]> for Sight {
    ghost own = { λ s. sight_numbers (sight_on_paper s) };

    fn in_numbers(self) -> [u32; 3] {
        let began = self.began;
        let end = match self.until {
            Some(next) => next.0,
            None => 0,
        };
        [self.level as u32, began.0, end]
    }
}

// How many changes, or the length of the file written.
impl InNumbers<[u32; 1]> for u16 {
    ghost own = { one_number };

    #[tactic(auto, unfolding(crate::specs::Numbers::one_number))]
    fn in_numbers(self) -> [u32; 1] {
        [self as u32]
    }
}

// 1 where all are met; else 0, with the position and the frame.
impl InNumbers<[u64; 3]> for Option<Unmet> {
    ghost own = { λ v. verdict_numbers (verdict_on_paper v) };

    fn in_numbers(self) -> [u64; 3] {
        match self {
            None => [1, 0, 0],
            Some(unmet) => {
                let frame = unmet.frame;
                [0, unmet.position as u64, frame.0 as u64]
            }
        }
    }
}
