// Changes of the state: hours come into a deal and leave it, a price rises.
ghost use Rattle.std.specs.Prelude.{◌≡◌, ℕ, ◌+◌, ◌<◌, ◌≤◌, get_or, set};
ghost use Rattle.market.specs.Method.{slot_for};
ghost use Rattle.offers.specs.Limits.{top_price};
ghost use Rattle.method.specs.View.{hours_held, agreed_at};
ghost use Rattle.method.specs.LateHours.{late_slot};
ghost use Rattle.method.specs.Changes.{Full, MoreHeld, aged_pair, Aged};

use grid::Sides;
use market::Deal;
use offers::Agreed;

// The hours of a pair when x more come into a deal; in the free deal they are new.
pub(crate) fn more(agreed: Agreed, deal: Deal, x: u16) -> Agreed
    requires { hours_held agreed (slot_for deal) + x < 65536 }
    ensures { MoreHeld agreed result (slot_for deal) x }
{
    match deal {
        Deal::Tariff => Agreed {
            by_tariff: agreed.by_tariff + x,
            old_free: agreed.old_free,
            new_free: agreed.new_free,
        },
        Deal::Free => Agreed {
            by_tariff: agreed.by_tariff,
            old_free: agreed.old_free,
            new_free: agreed.new_free + x,
        },
    }
}

// The hours of a pair when x late ones leave a deal.
pub(crate) fn fewer(agreed: Agreed, deal: Deal, x: u16) -> Agreed
    requires { x ≤ hours_held agreed (late_slot deal) }
    ensures { MoreHeld result agreed (late_slot deal) x }
{
    match deal {
        Deal::Tariff => Agreed {
            by_tariff: agreed.by_tariff - x,
            old_free: agreed.old_free,
            new_free: agreed.new_free,
        },
        Deal::Free => Agreed {
            by_tariff: agreed.by_tariff,
            old_free: agreed.old_free - x,
            new_free: agreed.new_free,
        },
    }
}

// The hours of a pair when the new ones have become old.
fn aged(agreed: Agreed) -> Agreed
    requires { agreed.old_free + agreed.new_free < 65536 }
    ensures { result ≡ aged_pair agreed }
{
    Agreed {
        by_tariff: agreed.by_tariff,
        old_free: agreed.old_free + agreed.new_free,
        new_free: 0,
    }
}

// All new hours of pilot j become old. By index: only the cell of pilot j is written in each row.
pub(crate) fn age(held: [[Agreed; 16]; 16], sides: Sides, j: usize) -> [[Agreed; 16]; 16]
    requires full { Full held × (j < 16) }
    requires by_index { (i : ℕ) → i < sides.growers → (agreed_at held i j).old_free + (agreed_at held i j).new_free < 65536 }
    ensures { Full result × Aged held result j sides.growers }
{
    let mut next = held;
    for i in 0..sides.growers {
        next[i][j] = aged(next[i][j]);
    }
    next
}

pub(crate) fn raise_price(price: &mut [u32; 16], j: usize)
    requires { (j < 16) × (get_or price.old j 0 ≤ top_price) }
    ensures { price.new ≡ set price.old j (get_or price.old j 0 + 1) }
{
    price[j] = price[j] + 1;
}
