// The turns of the method: what a grower asks for is given, or a pilot's price rises, until no grower asks for anything.
ghost use Rattle.std.specs.Prelude.{◌≡◌, ℕ, length};
ghost use Rattle.method.specs.View.{line, ticket};
ghost use Rattle.method.specs.State.{Fit, Ended};

use crate::changes::{fewer, more};
use crate::finish::no_hours;
use crate::requests::{following, request};
use crate::rises::rise;
use grid::Sides;
use offers::{Agreed, Terms, late_here};

// The hours that are held at the end of the method, which starts with none. Growers are asked in turn, each until he asks for nothing; k
// in a row did, up to the one before grower i. Hours are given while the pilot has free ones, or in place of late hours of his; if he has
// neither, his price rises. Late hours are looked for here, since a call would copy both squares in every turn, and by index, since those
// that are found are written at their place.
pub(crate) fn run(
    sides: Sides,
    grower_hours: [u16; 16],
    pilot_hours: [u16; 16],
    terms: [[Terms; 16]; 16],
    price: &mut [u32; 16],
) -> [[Agreed; 16]; 16]
    requires fit { Fit (ticket sides.growers sides.pilots grower_hours pilot_hours terms) }
    requires price_len { (length price.old ≡ 16) × ((j : ℕ) → line price.old j ≡ 0) }
    ensures { Ended (ticket sides.growers sides.pilots grower_hours pilot_hours terms) price.new result }
{
    let mut held = no_hours();
    let mut free = pilot_hours;
    let mut i: usize = 0;
    let mut k: usize = 0;
    'turns: while k < sides.growers {
        let asked = request(terms[i], held[i], grower_hours[i], &*price, sides);
        let Some((j, deal, most)) = asked else {
            i = following(i, sides);
            k += 1;
            continue;
        };
        k = 0;
        let unused = free[j];
        if 0 < unused {
            let x = most.min(unused);
            held[i][j] = more(held[i][j], deal, x);
            free[j] = unused - x;
            continue;
        }
        for giver in 0..sides.growers {
            let late = late_here(price[j], terms[giver][j], held[giver][j]);
            if let Some((given, hours)) = late {
                let x = most.min(hours);
                held[i][j] = more(held[i][j], deal, x);
                held[giver][j] = fewer(held[giver][j], given, x);
                continue 'turns;
            }
        }
        let after = rise(sides, free, terms, &mut *price, held, j);
        held = after;
    }
    held
}
