// The method that settles a market. Growers propose, pilots keep the best offers, prices rise in eighteenths of a euro, and one
// rounding at the end makes them whole euros. Each quantity of a pair comes and goes in a square of growers by pilots of its own. Inside,
// what the ticket says of a pair stands in one square, and the hours that it holds in another. The state is a row of prices, the square of
// the hours held and a row of free hours.
#![tactic(auto)]

mod arith;
mod changes;
mod choice;
mod finish;
mod given;
mod grower_limits;
mod jumps;
mod pilot_limits;
mod requests;
mod rises;
mod ties;
mod turns;

ghost use Rattle.std.specs.Prelude.{min};
ghost use Rattle.market.specs.Market.{Sound};
ghost use Rattle.market.specs.Tables.{ticket_in, settlement_in};
ghost use Rattle.method.specs.Result.{Beyond};

use grid::Sides;

// A sound settlement of the market of the first growers and pilots, at most 16 of each, whatever their hours, caps and amounts: writes
// the hours of tariff deals and of free deals, and returns the pay per free-deal hour. Beyond those growers and pilots the hours that were
// lent stay as they are, and there is no pay.
pub fn settle_squares(
    growers: usize,
    pilots: usize,
    grower_hours: [u16; 16],
    pilot_hours: [u16; 16],
    tariff_cap: [[u16; 16]; 16],
    tariff_gain: [[u16; 16]; 16],
    tariff_pay: [[u16; 16]; 16],
    free_cap: [[u16; 16]; 16],
    joint_gain: [[u16; 16]; 16],
    tariff_hours: &mut [[u16; 16]; 16],
    free_deal_hours: &mut [[u16; 16]; 16],
) -> [[u16; 16]; 16]
    ensures sound { Sound
        (ticket_in (min 16 growers) (min 16 pilots) grower_hours pilot_hours tariff_cap tariff_gain tariff_pay free_cap joint_gain)
        (settlement_in tariff_hours.new free_deal_hours.new result) }
    ensures beyond { Beyond (min 16 growers) (min 16 pilots) tariff_hours.old free_deal_hours.old
        tariff_hours.new free_deal_hours.new result }
{
    let sides = Sides {
        growers: numbers::within(growers),
        pilots: numbers::within(pilots),
    };
    let terms = given::terms_square(
        sides,
        tariff_cap,
        tariff_gain,
        tariff_pay,
        free_cap,
        joint_gain,
    );
    let mut price = finish::zero_prices();
    let held = turns::run(sides, grower_hours, pilot_hours, terms, &mut price);
    let shift = euros::rounding(sides.pilots, price);
    finish::write_flown(sides, held, price, shift, tariff_hours, free_deal_hours)
}
