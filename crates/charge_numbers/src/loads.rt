// The loads that numbers say.
ghost use Rattle.std.specs.Prelude.{◌≡◌, ◌≤◌, get_or, take};
ghost use Rattle.charge_loads.specs.Suits.{nought};
ghost use Rattle.charge_numbers.specs.Numbers.{load_at};
ghost use Rattle.charge_numbers.specs.Steps.{room, first_loads};

use crate::ROOM;
use charge::Load;

// The first loads, as many as the count says, and behind them loads of 0.
pub(crate) fn first_loads(cases: &[u8], charges: &[f64], count: usize) -> [Load; ROOM]
    requires { count ≤ room }
    ensures { take count result ≡ first_loads cases.now charges.now count }
{
    let mut list = [Load::Any(0.0); ROOM];
    for k in 0..count {
        list[k] = load_at(cases, charges, k);
    }
    list
}

// The load of net k: case 0 is one charge for any change, the first of its two; every other case is rising and falling.
#[tactic(auto, unfolding(crate::specs::Numbers::load_at))]
fn load_at(cases: &[u8], charges: &[f64], k: usize) -> Load
    requires { k ≤ room }
    ensures { result ≡ load_at cases.now charges.now k }
{
    let first = charge_at(charges, 2 * k);
    let second = charge_at(charges, 2 * k + 1);
    if numbers::byte_at(cases, k) == 0 {
        return Load::Any(first);
    }
    Load::Edges {
        rising: first,
        falling: second,
    }
}

// The charge at a place, 0 past the end.
#[tactic(auto, using(crate::proofs::Numbered::read_nought))]
fn charge_at(charges: &[f64], place: usize) -> f64
    ensures { result ≡ get_or charges.now place nought }
{
    charges.get(place).copied().unwrap_or(0.0)
}
