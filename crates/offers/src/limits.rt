// How far a rise of the marked pilots' prices is borne. No free-deal hour with a marked pilot may become worth less than another open
// deal, no tariff hour of his may pay too little, and he has no free hour.
ghost use Rattle.std.specs.Prelude.{◌≡◌};
ghost use Rattle.offers.specs.Limits.{worth_here, tariff_slack, outside_of, pilot_slack};

use crate::chances::{greater_chance, tariff_chance};
use crate::{Agreed, MANY, TOP, Terms};

// The least that a free-deal hour with one pilot is worth to its grower, if the pilot is marked and there is one.
pub fn worth_here(marked: bool, terms: Terms, agreed: Agreed, price: u32) -> u32
    ensures { result ≡ worth_here marked terms agreed price }
{
    if !marked {
        return MANY;
    }
    if 0 < agreed.new_free {
        return (18 * u32::from(terms.joint_gain) + 1).saturating_sub(price);
    }
    if 0 < agreed.old_free {
        return (18 * u32::from(terms.joint_gain) + 2).saturating_sub(price);
    }
    MANY
}

// At most `by`, and what the tariff hours of a pilot with one grower bear, if he is marked.
pub fn tariff_slack(by: u32, marked: bool, terms: Terms, agreed: Agreed, price: u32) -> u32
    ensures { result ≡ tariff_slack by marked terms agreed price }
{
    if marked {
        if 0 < agreed.by_tariff {
            return by.min((18 * u32::from(terms.tariff_pay) + 1).saturating_sub(price));
        }
    }
    by
}

// The greater of a grower's chances with one pilot, but for the free deal with a marked one.
pub fn outside(marked: bool, terms: Terms, agreed: Agreed, price: u32) -> u32
    ensures { result ≡ outside_of marked terms agreed price }
{
    if marked {
        tariff_chance(terms, agreed, price)
    } else {
        greater_chance(terms, agreed, price)
    }
}

// At most `by`, and what a pilot bears by himself, if he is marked: nothing, if he has a free hour.
pub fn pilot_slack(by: u32, marked: bool, free: u16, price: u32) -> u32
    ensures { result ≡ pilot_slack by marked free price }
{
    if !marked {
        return by;
    }
    if 0 < free {
        return 0;
    }
    by.min(TOP.saturating_sub(price))
}
