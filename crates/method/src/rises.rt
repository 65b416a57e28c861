// How a pilot's price rises: with the prices of the pilots tied to him, as far as all bear it, or else alone and by one.
ghost use Rattle.std.specs.Prelude.{ℕ, ◌+◌, ◌<◌, ◌≤◌, []};
ghost use Rattle.offers.specs.Limits.{top_price};
ghost use Rattle.method.specs.View.{line, ticket, agreed_at};
ghost use Rattle.method.specs.Changes.{Full};
ghost use Rattle.method.specs.Rises.{Rises};

use crate::changes::{age, raise_price};
use crate::grower_limits::row_slack;
use crate::jumps::raise_marked;
use crate::pilot_limits::pilots_slack;
use crate::requests::following;
use crate::ties::{only, tie_in};
use grid::Sides;
use offers::{Agreed, Terms};

// Pilot j's price rises. The pilots tied to him are marked, by one grower after another and round again until all growers in a row tie
// nobody; 16 rounds suffice, since each but the last ties one more of 16 pilots. If all bear it, the marked prices rise at once, or else
// pilot j's alone, and his new hours become old. It is one function because a call would copy both squares. By index: a grower has the
// same row of two squares.
pub(crate) fn rise(
    sides: Sides,
    free: [u16; 16],
    terms: [[Terms; 16]; 16],
    price: &mut [u32; 16],
    held: [[Agreed; 16]; 16],
    j: usize,
) -> [[Agreed; 16]; 16]
    requires full { Full held × (j < sides.pilots) }
    requires by_index { (l : ℕ) → l < sides.pilots → line price.old l ≤ top_price }
    requires by_index_2 { (i : ℕ) → i < sides.growers → (agreed_at held i j).old_free + (agreed_at held i j).new_free < 65536 }
    ensures { Rises (ticket sides.growers sides.pilots [] [] terms) (line «free») price.old held price.new result j }
{
    let mut marks = only(j);
    let mut i: usize = 0;
    let mut same: usize = 0;
    for step in 0..256usize {
        if sides.growers <= same {
            break;
        }
        let next = tie_in(terms[i], held[i], &*price, sides, marks);
        same = if marks == next { same + 1 } else { 0 };
        marks = next;
        i = following(i, sides);
    }
    let mut by = pilots_slack(sides, free, &*price, marks);
    for k in 0..sides.growers {
        by = row_slack(terms[k], held[k], &*price, sides, marks, by);
    }
    if 0 < by {
        if marks[j] {
            raise_marked(price, marks, sides, by);
            return held;
        }
    }
    raise_price(price, j);
    age(held, sides, j)
}
