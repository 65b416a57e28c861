// What a grower could have: the deal that offers him most, and the hours that he holds already. It is done on his rows of the squares.
ghost use Rattle.std.specs.Prelude.{◌≡◌, ◌+◌, ◌<◌, ◌≤◌, []};
ghost use Rattle.market.specs.Market.{used_by_grower};
ghost use Rattle.market.specs.Method.{hours_of};
ghost use Rattle.method.specs.View.{line, alone, held_by};
ghost use Rattle.method.specs.Choice.{chance, Greatest};

use grid::Sides;
use market::Deal;
use offers::{Agreed, Terms, better_deal, greater_chance};

// The deal that offers a grower most: with which pilot, and which of their deals. By index: a pilot stands at the same place of three rows.
pub(crate) fn best_deal(
    terms: [Terms; 16],
    agreed: [Agreed; 16],
    price: &[u32; 16],
    sides: Sides,
) -> Option<(usize, Deal)>
    ensures { Greatest (chance (alone sides.pilots 0 terms) (line price.now) (held_by agreed) 0) sides.pilots result }
{
    let mut top: u32 = 0;
    let mut pilot: usize = 0;
    for j in 0..sides.pilots {
        let chance = greater_chance(terms[j], agreed[j], price[j]);
        if top < chance {
            top = chance;
            pilot = j;
        }
    }
    if 0 < top {
        let deal = better_deal(terms[pilot], agreed[pilot], price[pilot]);
        Some((pilot, deal))
    } else {
        None
    }
}

// The hours that a grower and a pilot hold in both their deals.
pub(crate) fn pair_hours(agreed: Agreed) -> u32
    ensures { (result ≡ agreed.by_tariff + (agreed.old_free + agreed.new_free)) × (result < 196608) }
{
    u32::from(agreed.by_tariff) + (u32::from(agreed.old_free) + u32::from(agreed.new_free))
}

// The hours that a grower holds with the first pilots.
pub(crate) fn used_by_grower(agreed: [Agreed; 16], sides: Sides) -> u32
    ensures { result ≡ used_by_grower (alone sides.pilots 0 []) (hours_of (held_by agreed)) 0 }
{
    let mut total: u32 = 0;
    for &pair in &agreed[..sides.pilots] {
        total += pair_hours(pair);
    }
    total
}
