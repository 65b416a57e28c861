// What one more hour of a deal would bring its grower at the pilot's price, and 1: an offer of 0 says that the pilot would not take it.
// A chance is the offer of a deal below its cap, else 0.
ghost use Rattle.std.specs.Prelude.{◌≡◌, suc, ◌*◌, ◌-◌, leb};
ghost use Rattle.grid.specs.Pick.{pick};
ghost use Rattle.offers.specs.Chances.{tariff_chance, free_chance, greater_chance, better_deal};

use crate::{Agreed, Terms};
use market::Deal;

fn tariff_offer(price: u32, gain: u16, pay: u16) -> u32
    ensures { result ≡ pick (leb price (18 * pay)) (suc (18 * gain)) 0 }
{
    if price <= 18 * u32::from(pay) {
        18 * u32::from(gain) + 1
    } else {
        0
    }
}

fn free_offer(price: u32, gain: u16) -> u32
    ensures { result ≡ suc (18 * gain) - price }
{
    (18 * u32::from(gain) + 1).saturating_sub(price)
}

// The chances of a grower with one pilot.
pub(crate) fn tariff_chance(terms: Terms, agreed: Agreed, price: u32) -> u32
    ensures { result ≡ tariff_chance terms agreed price }
{
    if agreed.by_tariff < terms.tariff_cap {
        tariff_offer(price, terms.tariff_gain, terms.tariff_pay)
    } else {
        0
    }
}

pub fn free_chance(terms: Terms, agreed: Agreed, price: u32) -> u32
    ensures { result ≡ free_chance terms agreed price }
{
    if u32::from(agreed.old_free) + u32::from(agreed.new_free) < u32::from(terms.free_cap) {
        free_offer(price, terms.joint_gain)
    } else {
        0
    }
}

// The greater of both chances.
pub fn greater_chance(terms: Terms, agreed: Agreed, price: u32) -> u32
    ensures { result ≡ greater_chance terms agreed price }
{
    let tariff = tariff_chance(terms, agreed, price);
    let free = free_chance(terms, agreed, price);
    tariff.max(free)
}

// The deal of the greater chance; the tariff deal, if they are equal.
pub fn better_deal(terms: Terms, agreed: Agreed, price: u32) -> Deal
    ensures { result ≡ better_deal terms agreed price }
{
    let tariff = tariff_chance(terms, agreed, price);
    let free = free_chance(terms, agreed, price);
    if tariff < free {
        Deal::Free
    } else {
        Deal::Tariff
    }
}
