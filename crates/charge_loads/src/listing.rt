// How many nets a list of loads suits: question 21, asked of the list before the circuit is known.
ghost use Rattle.std.specs.Prelude.{◌≡◌};
ghost use Rattle.charge_loads.specs.Suits.{in_range, suits};
ghost use Rattle.charge_loads.specs.Steps.{with_load, nets_loaded};

use crate::Load;

// More nets than any circuit has.
const NO_CIRCUIT: u32 = 131072;

const MOST_CHARGE: f64 = 1000.0;

// Is the charge from 0 to 1,000? With a NaN no comparison holds.
#[tactic(auto, using(crate::proofs::Listed::in_range_by))]
fn in_range(charge: f64) -> bool
    ensures { result ≡ in_range charge }
{
    (0.0..=MOST_CHARGE).contains(&charge)
}

// Is each charge of a load in range, whether it is ever drawn or not?
fn load_suits(load: Load) -> bool
    ensures { result ≡ suits load }
{
    match load {
        Load::Any(charge) => in_range(charge),
        Load::Edges { rising, falling } => in_range(rising) && in_range(falling),
    }
}

// So many nets and one more; more than any circuit has where its load does not suit.
fn one_more(load: Load, nets: u32) -> u32
    ensures { result ≡ with_load load nets }
{
    if !load_suits(load) {
        return NO_CIRCUIT;
    }
    if NO_CIRCUIT <= nets {
        return NO_CIRCUIT;
    }
    nets + 1
}

// How many nets the list suits, or more than any circuit has where it suits none.
pub fn nets_loaded(list: &[Load]) -> u32
    ensures { result ≡ nets_loaded list.now }
{
    list.iter().fold(0, |nets, load| one_more(*load, nets))
}
