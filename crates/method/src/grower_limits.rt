// How far growers bear a rise of prices: no free hour with a pilot whose price rises may become worth less than another open deal. Loops
// go by index: a pilot stands at the same place of four rows.
ghost use Rattle.std.specs.Prelude.{◌≤◌};
ghost use Rattle.method.specs.View.{line, alone, held_by};
ghost use Rattle.method.specs.Jumps.{among, GrowersBear};

use grid::Sides;
use offers::{Agreed, MANY, Terms, outside, tariff_slack, worth_here};

// The least that a free-deal hour of a grower with a marked pilot is worth to him.
pub(crate) fn least_worth(
    terms: [Terms; 16],
    agreed: [Agreed; 16],
    price: &[u32; 16],
    sides: Sides,
    marks: [bool; 16],
) -> u32 {
    let mut low = MANY;
    for j in 0..sides.pilots {
        low = low.min(worth_here(marks[j], terms[j], agreed[j], price[j]));
    }
    low
}

// At most `bound`, and by how much the prices of the marked pilots may rise before a tariff hour with the grower pays too little, or a
// free-deal hour is worth less to him than another deal.
pub(crate) fn row_slack(
    terms: [Terms; 16],
    agreed: [Agreed; 16],
    price: &[u32; 16],
    sides: Sides,
    marks: [bool; 16],
    bound: u32,
) -> u32
    ensures { (result ≤ bound) × GrowersBear (alone sides.pilots 0 terms) (among marks) (line price.now) (held_by agreed) 1 result }
{
    if bound == 0 {
        return 0;
    }
    let mut paid = bound;
    let mut low = MANY;
    let mut top: u32 = 1;
    for j in 0..sides.pilots {
        let marked = marks[j];
        paid = tariff_slack(paid, marked, terms[j], agreed[j], price[j]);
        low = low.min(worth_here(marked, terms[j], agreed[j], price[j]));
        top = top.max(outside(marked, terms[j], agreed[j], price[j]));
    }
    paid.min(low.saturating_sub(top))
}
