// A market settled on squares of growers by pilots: by a guess that is certified, or else by the method.
ghost use Rattle.std.specs.Prelude.{min};
ghost use Rattle.market.specs.Market.{Sound};
ghost use Rattle.market.specs.Tables.{ticket_in, settlement_in};

use guess::guess;

// Writes a sound settlement of the market of the first growers and pilots, at most 16 of each, to the lent squares, whatever hours, caps
// and amounts of 16 bits there are.
pub fn settle_squares(
    growers: usize,
    pilots: usize,
    grower_hours: [u16; 16],
    pilot_hours: [u16; 16],
    tariff_cap: [[u16; 16]; 16],
    tariff_gain: [[u16; 16]; 16],
    tariff_pay: [[u16; 16]; 16],
    free_cap: [[u16; 16]; 16],
    joint_gain: [[u16; 16]; 16],
    tariff_hours: &mut [[u16; 16]; 16],
    free_deal_hours: &mut [[u16; 16]; 16],
    pay: &mut [[u16; 16]; 16],
)
    ensures { Sound
        (ticket_in (min 16 growers) (min 16 pilots) grower_hours pilot_hours tariff_cap tariff_gain tariff_pay free_cap
        joint_gain)
        (settlement_in tariff_hours.new free_deal_hours.new pay.new) }
{
    if guess(
        growers,
        pilots,
        grower_hours,
        pilot_hours,
        tariff_cap,
        tariff_gain,
        tariff_pay,
        free_cap,
        joint_gain,
        &mut *tariff_hours,
        &mut *free_deal_hours,
        &mut *pay,
    ) {
        return;
    }
    *pay = method::settle_squares(
        growers,
        pilots,
        grower_hours,
        pilot_hours,
        tariff_cap,
        tariff_gain,
        tariff_pay,
        free_cap,
        joint_gain,
        tariff_hours,
        free_deal_hours,
    );
}
