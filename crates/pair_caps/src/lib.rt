// The five numbers of a pair with lower caps, which fit the hours that its grower and its pilot have in common.
#![tactic(auto)]

ghost use Rattle.std.specs.Prelude.{◌≡◌};
ghost use Rattle.pair_caps.specs.PairCaps.{amount_with, narrowed_terms};

use offers::Terms;

// An amount of a deal with this cap: a cap of 0 clears it.
fn amount_with(cap: u16, amount: u16) -> u16
    ensures { result ≡ amount_with cap amount }
{
    if cap == 0 { 0 } else { amount }
}

// What is left of a pair's numbers where the two have so many hours in common.
pub fn narrowed(terms: Terms, common: u16) -> Terms
    ensures { result ≡ narrowed_terms common terms }
{
    let tariff_cap = terms.tariff_cap.min(common);
    let free_cap = terms.free_cap.min(common.saturating_sub(tariff_cap));
    Terms {
        tariff_cap,
        tariff_gain: amount_with(tariff_cap, terms.tariff_gain),
        tariff_pay: amount_with(tariff_cap, terms.tariff_pay),
        free_cap,
        joint_gain: amount_with(free_cap, terms.joint_gain),
    }
}
