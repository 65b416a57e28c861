// Jumps: the prices of several pilots rise at once.
ghost use Rattle.std.specs.Prelude.{ℕ, ◌<◌, ◌≤◌};
ghost use Rattle.offers.specs.Limits.{top_price};
ghost use Rattle.method.specs.View.{line};
ghost use Rattle.method.specs.Jumps.{RaisedMarked};

use grid::Sides;

// The prices after those of the marked pilots rose by x. By index: a price is written where its mark is read.
fn raised(from: [u32; 16], marks: [bool; 16], sides: Sides, x: u32) -> [u32; 16]
    requires x_bound { x ≤ top_price }
    requires by_index { (j : ℕ) → j < sides.pilots → line from j ≤ top_price }
    ensures { RaisedMarked from result marks sides.pilots x }
{
    let mut price = from;
    for j in 0..sides.pilots {
        if marks[j] {
            price[j] = price[j] + x;
        }
    }
    price
}

// The prices of the marked pilots rise by x.
pub(crate) fn raise_marked(price: &mut [u32; 16], marks: [bool; 16], sides: Sides, x: u32)
    requires x_bound { x ≤ top_price }
    requires by_index { (j : ℕ) → j < sides.pilots → line price.old j ≤ top_price }
    ensures { RaisedMarked price.old price.new marks sides.pilots x }
{
    let next = raised(*price, marks, sides, x);
    *price = next;
}
