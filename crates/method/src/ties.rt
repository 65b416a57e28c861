// The pilots whose prices rise together. Any choice would do, for what growers and pilots bear is tested; this one makes jumps long.
ghost use Rattle.std.specs.Prelude.{◌<◌, ◌≤◌};

use crate::grower_limits::least_worth;
use grid::Sides;
use offers::{Agreed, Terms, free_chance};

// How many eighteenths less than that a free deal may offer and still tie. Three make the fewest jumps of the slowest tickets found.
const CLOSE: u32 = 3;

// The marked pilots, and every pilot whose free deal offers the grower as much as his least free-deal hour with a marked one, or
// little less. By index: a mark is written where terms, hours and price are read.
pub(crate) fn tie_in(
    terms: [Terms; 16],
    agreed: [Agreed; 16],
    price: &[u32; 16],
    sides: Sides,
    marks: [bool; 16],
) -> [bool; 16] {
    let low = least_worth(terms, agreed, price, sides, marks).saturating_sub(CLOSE);
    let mut tied = marks;
    for j in 0..sides.pilots {
        if low <= free_chance(terms[j], agreed[j], price[j]) {
            tied[j] = true;
        }
    }
    tied
}

pub(crate) fn only(j: usize) -> [bool; 16]
    requires { j < 16 }
{
    let mut marks = [false; 16];
    marks[j] = true;
    marks
}
