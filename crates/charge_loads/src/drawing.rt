// The charge that the kept changes of all nets draw in a lane, added up net by net and frame by frame.
ghost use Rattle.std.specs.Prelude.{◌≡◌, map};
ghost use Rattle.method.specs.Words as bits;
ghost use Rattle.charge_loads.specs.Charges.{change_charge, charges, added, drawn_by_nets};
ghost use Rattle.charge_loads.specs.Steps.{drawn_at, net_part, parts_in};

use crate::Load;
use method::Net;
use slices::entry_at;

// The charge of a change to this level.
#[tactic(auto, unfolding(crate::specs::Charges::change_charge))]
fn change_charge(load: Load, level: bool) -> f64
    ensures { result ≡ change_charge load level }
{
    match load {
        Load::Any(charge) => charge,
        Load::Edges { rising, falling } => { if level { rising } else { falling } }
    }
}

// The total after a frame at this level, the frame before having been at that: a kept change adds its charge.
fn after_frame(total: f64, load: Load, before: bool, level: bool) -> f64
    ensures { result ≡ drawn_at load before level total }
{
    if level == before {
        total
    } else {
        total + change_charge(load, level)
    }
}

// The total after every frame of a net.
fn after_frames(values: &[u64], lane: u8, load: Load, total: f64) -> f64
    ensures { result ≡ added (charges load (map (bits.lane lane) values.now)) total }
{
    let mut sum = total;
    let mut before = words::bit_of(entry_at(values, 0), lane);
    for word in values.iter().skip(1) {
        let level = words::bit_of(*word, lane);
        sum = after_frame(sum, load, before, level);
        before = level;
    }
    sum
}

// The total after net i, whose frames lie where its pair in the directory says. No circuit has a net above 65,535.
fn after_net(directory: &[u16], values: &[u64], i: usize, lane: u8, load: Load, total: f64) -> f64
    ensures { result ≡ added (charges load (map (bits.lane lane) (net_part directory.now values.now i))) total }
{
    let Ok(net) = u16::try_from(i) else {
        return total;
    };
    let part = looks::values_of(directory, values, Net(net));
    after_frames(part, lane, load, total)
}

// The total of all nets, each with its load, in order.
pub fn charge_of_nets(directory: &[u16], values: &[u64], lane: u8, loads: &[Load]) -> f64
    ensures { result ≡ drawn_by_nets (parts_in directory.now values.now lane) loads.now }
{
    let mut total = 0.0;
    for (i, load) in loads.iter().enumerate() {
        total = after_net(directory, values, i, lane, *load, total);
    }
    total
}
