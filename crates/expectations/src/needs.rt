// How many nets a circuit must have for expectations: question 12, asked of a list before the circuit is known.
ghost use Rattle.std.specs.Prelude.{◌≡◌};
ghost use Rattle.expectations.specs.Steps.{nets_for, nets_needed};

use crate::Expectation;

// More nets than any circuit has.
const NO_CIRCUIT: u32 = 131072;

// How many nets a circuit must have so that the expectation passes question 12 there.
#[tactic(auto, unfolding(crate::specs::Steps::nets_for))]
fn nets_for(e: Expectation) -> u32
    ensures { result ≡ nets_for e }
{
    if 64 <= e.lane {
        return NO_CIRCUIT;
    }
    if e.to.0 < e.from.0 {
        return NO_CIRCUIT;
    }
    if 1 < e.level {
        return NO_CIRCUIT;
    }
    e.net.0 as u32 + 1
}

// How many nets a circuit must have so that the list passes question 12 there.
pub fn nets_needed(list: &[Expectation]) -> u32
    ensures { result ≡ nets_needed list.now }
{
    list.iter().fold(0, |nets, e| nets.max(nets_for(*e)))
}
