// Lent areas set to zeros, whatever the type of their numbers, and the four areas that hold a plan.
#![tactic(auto)]

ghost use Rattle.std.specs.Prelude.{◌≡◌, length, replicate};
ghost use Rattle.method.specs.Areas.{areas, all_cleared};

use lists::Number;
use method::Tick;

// Sets every number of the area to 0.
pub fn clear<T: Number>(area: &mut [T])
    ensures { area.new ≡ replicate (length area.old) T.zero }
{
    area.fill(T::from(0));
}

// Clears the areas of a plan.
#[tactic(auto, unfolding(method::specs::Areas::all_cleared))]
pub fn clear_plan(
    directory: &mut [u16],
    times: &mut [Tick],
    inertial: &mut [u16],
    fanins: &mut [u16],
)
    ensures { areas directory.new times.new inertial.new fanins.new ≡ all_cleared (areas directory.old times.old inertial.old fanins.old) }
{
    clear(directory);
    clear(times);
    clear(inertial);
    clear(fanins);
}
