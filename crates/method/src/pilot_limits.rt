// How far pilots bear a rise of their prices: they have no free hour, and no price rises above the top.
ghost use Rattle.std.specs.Prelude.{◌≤◌};
ghost use Rattle.method.specs.View.{line};
ghost use Rattle.method.specs.Jumps.{among, PilotsBear};

use grid::Sides;
use offers::{TOP, pilot_slack};

// What the marked pilots bear by themselves: nothing, if one has a free hour. By index: a pilot stands at the same place of three rows.
pub(crate) fn pilots_slack(
    sides: Sides,
    free: [u16; 16],
    price: &[u32; 16],
    marks: [bool; 16],
) -> u32
    ensures { PilotsBear (among marks) (line «free») (line price.now) sides.pilots result }
{
    let mut by = TOP;
    for j in 0..sides.pilots {
        by = pilot_slack(by, marks[j], free[j], price[j]);
    }
    by
}
