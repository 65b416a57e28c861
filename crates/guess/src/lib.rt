// A settlement guessed fast, by moving hours along ties (docs/METHOD.md, The guess), and tested. Of the guess nothing is proved but that
// each function is safe and ends: every place is taken within its square, every sum and difference stays within its width, and every
// search is cut short after far more turns than were ever seen. What it comes to is then held against its certificate.
// Squares and rows stand by number in one array, and loops go by index: with a struct of them and closures over rows settling took up to
// 2.2 times as long.
#![tactic(auto)]

mod beginning;
mod deals;
mod events;
mod moves;
mod pilots;
mod requests;
mod rows;
mod saturating;
mod search;
mod sets;
mod state;
mod tariffs;
mod ways;

ghost use Rattle.std.specs.Prelude.{◌≡◌, min, true};
ghost use Rattle.market.specs.Market.{Sound};
ghost use Rattle.market.specs.Tables.{ticket_in, settlement_in};
ghost use Rattle.certificate.specs.Certified.{certified};

use state::{FREE_DEAL_HOURS, TARIFF_HOURS};

// Writes a settlement of the market of the first growers and pilots, at most 16 of each, to the lent squares, and answers whether it is
// certified. If it is, it is sound; if not, nothing is known of it.
pub fn guess(
    growers: usize,
    pilots: usize,
    grower_hours: [u16; 16],
    pilot_hours: [u16; 16],
    tariff_cap: [[u16; 16]; 16],
    tariff_gain: [[u16; 16]; 16],
    tariff_pay: [[u16; 16]; 16],
    free_cap: [[u16; 16]; 16],
    joint_gain: [[u16; 16]; 16],
    tariff_hours: &mut [[u16; 16]; 16],
    free_deal_hours: &mut [[u16; 16]; 16],
    pay: &mut [[u16; 16]; 16],
) -> bool
    ensures value { result ≡ certified
        (ticket_in (min 16 growers) (min 16 pilots) grower_hours pilot_hours tariff_cap tariff_gain tariff_pay free_cap
        joint_gain)
        (settlement_in tariff_hours.new free_deal_hours.new pay.new) }
    ensures sound { result ≡ true → Sound
        (ticket_in (min 16 growers) (min 16 pilots) grower_hours pilot_hours tariff_cap tariff_gain tariff_pay free_cap
        joint_gain)
        (settlement_in tariff_hours.new free_deal_hours.new pay.new) }
{
    let n = numbers::within(growers);
    let mut s = state::nothing();
    beginning::parties(&mut s, grower_hours, pilot_hours);
    beginning::tariffs(&mut s, n, tariff_cap, tariff_gain, tariff_pay);
    beginning::free_deals(&mut s, n, free_cap, joint_gain);
    requests::run(&mut s, n);
    let by_tariff = s[TARIFF_HOURS];
    let in_free_deals = s[FREE_DEAL_HOURS];
    let paid = beginning::pays(&s, n);
    *tariff_hours = by_tariff;
    *free_deal_hours = in_free_deals;
    *pay = paid;
    certificate::certified(
        growers,
        pilots,
        grower_hours,
        pilot_hours,
        tariff_cap,
        tariff_gain,
        tariff_pay,
        free_cap,
        joint_gain,
        by_tariff,
        in_free_deals,
        paid,
    )
}
