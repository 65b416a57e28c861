// The test whether the least hours of all parties certify a settlement. It is quick, and enough for soundness. Squares are of growers by
// pilots and go by value. What is known of parties stands in rows, so that loops over partners become vector code.
#![tactic(auto)]

mod pairs;
mod parties;

ghost use Rattle.std.specs.Prelude.{◌≡◌, min};
ghost use Rattle.market.specs.Tables.{ticket_in, settlement_in};
ghost use Rattle.certificate.specs.Certified.{certified};

use grid::{differences, turned, zero_row};
use pairs::rows_kept;
use parties::side;

// A grower or a pilot: his free hours, what one is worth to him, and what each hour of his is worth to him at least.
#[derive(Clone, Copy)]
pub(crate) struct Party {
    pub(crate) free: u16,
    pub(crate) standby: u16,
    pub(crate) least: u16,
}

// All growers, or all pilots, in rows; and whether nobody of them is over his hours.
#[derive(Clone, Copy)]
pub(crate) struct Side {
    pub(crate) fits: bool,
    pub(crate) free: [u16; 16],
    pub(crate) standby: [u16; 16],
    pub(crate) least: [u16; 16],
}

// Whether a settlement of the market of the first growers and pilots, at most 16 of each, is certified.
pub fn certified(
    growers: usize,
    pilots: usize,
    grower_hours: [u16; 16],
    pilot_hours: [u16; 16],
    tariff_cap: [[u16; 16]; 16],
    tariff_gain: [[u16; 16]; 16],
    tariff_pay: [[u16; 16]; 16],
    free_cap: [[u16; 16]; 16],
    joint_gain: [[u16; 16]; 16],
    tariff_hours: [[u16; 16]; 16],
    free_deal_hours: [[u16; 16]; 16],
    pay: [[u16; 16]; 16],
) -> bool
    ensures { result ≡ certified
        (ticket_in (min 16 growers) (min 16 pilots) grower_hours pilot_hours tariff_cap tariff_gain tariff_pay free_cap
        joint_gain)
        (settlement_in tariff_hours free_deal_hours pay) }
{
    let n = numbers::within(growers);
    let m = numbers::within(pilots);
    let none = zero_row();
    let of_growers = side(
        n,
        m,
        grower_hours,
        none,
        tariff_hours,
        tariff_gain,
        free_deal_hours,
        differences(joint_gain, pay, n, m),
    );
    let of_pilots = side(
        m,
        n,
        pilot_hours,
        none,
        turned(tariff_hours, n, m),
        turned(tariff_pay, n, m),
        turned(free_deal_hours, n, m),
        turned(pay, n, m),
    );
    of_growers.fits
        & of_pilots.fits
        & rows_kept(
            n,
            m,
            of_growers,
            of_pilots,
            tariff_cap,
            tariff_gain,
            tariff_pay,
            free_cap,
            joint_gain,
            tariff_hours,
            free_deal_hours,
            pay,
        )
}
