// What growers ask for, one after another. What concerns one grower is done on his rows of the squares.
ghost use Rattle.std.specs.Prelude.{◌≡◌, ◌+◌, ◌<◌, ◌≤◌};
ghost use Rattle.method.specs.View.{line, alone, held_by, hours_in, cap_of};
ghost use Rattle.method.specs.Choice.{Asks};

use crate::arith::narrow;
use crate::choice::{best_deal, used_by_grower};
use grid::Sides;
use market::Deal;
use offers::{Agreed, Terms};

// How many hours a deal of a grower and a pilot has room for.
fn room(terms: Terms, agreed: Agreed, deal: Deal) -> u32
    requires { hours_in agreed deal < cap_of terms deal }
    ensures { (0 < result) × (hours_in agreed deal + result ≡ cap_of terms deal) }
{
    match deal {
        Deal::Tariff => u32::from(terms.tariff_cap) - u32::from(agreed.by_tariff),
        Deal::Free => u32::from(terms.free_cap)
            - (u32::from(agreed.old_free) + u32::from(agreed.new_free)),
    }
}

// What a grower asks for: nothing without a free hour, else as many hours of his best deal as he has free and it has room for. Said with
// which pilot, in which of their deals, and how many.
pub(crate) fn request(
    terms: [Terms; 16],
    agreed: [Agreed; 16],
    hours: u16,
    price: &[u32; 16],
    sides: Sides,
) -> Option<(usize, Deal, u16)>
    ensures { Asks (alone sides.pilots hours terms) (line price.now) (held_by agreed) 0 result }
{
    let used = used_by_grower(agreed, sides);
    let own = u32::from(hours);
    if own <= used {
        return None;
    }
    let (j, deal) = best_deal(terms, agreed, price, sides)?;
    let most = room(terms[j], agreed[j], deal).min(own - used);
    Some((j, deal, narrow(most)))
}

// The grower after grower i; the first, after the last.
pub(crate) fn following(i: usize, sides: Sides) -> usize
    requires { i < sides.growers }
    ensures { (result < sides.growers) × (i + 1 < sides.growers → result ≡ i + 1) × (sides.growers ≤ i + 1 → result ≡ 0) }
{
    if i + 1 < sides.growers { i + 1 } else { 0 }
}
