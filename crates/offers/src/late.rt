// Late hours: those that pay their pilot less than his price. They are the old hours of free deals, and hours of a tariff below it.
ghost use Rattle.std.specs.Prelude.{◌≡◌};
ghost use Rattle.offers.specs.Late.{late_hours};

use crate::{Agreed, Terms};
use market::Deal;

// Late hours of a pilot with one grower: in which of their deals, and how many.
pub fn late_here(price: u32, terms: Terms, agreed: Agreed) -> Option<(Deal, u16)>
    ensures { result ≡ late_hours price terms agreed }
{
    if 0 < agreed.old_free {
        return Some((Deal::Free, agreed.old_free));
    }
    if 0 < agreed.by_tariff {
        if 18 * u32::from(terms.tariff_pay) < price {
            return Some((Deal::Tariff, agreed.by_tariff));
        }
    }
    None
}
