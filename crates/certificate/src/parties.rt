// What everybody's hours are worth to him at least. Loops go by index: a partner stands at the same place of two or four rows.
ghost use Rattle.std.specs.Prelude.{◌≡◌, ◌≤◌};
ghost use Rattle.certificate.specs.Certified.{worth_of, least_of};
ghost use Rattle.certificate.specs.Rows.{used_in, least_in, IsSide};

use crate::Side;
use grid::zero_row;
use numbers::left;

// What an hour is worth where there is none: above every amount.
const NO_HOUR: u16 = 65535;

// What an hour of a deal earns, if the deal has hours.
fn worth_of(hours: u16, earned: u16) -> u16
    ensures { result ≡ worth_of hours earned }
{
    if 0 < hours { earned } else { NO_HOUR }
}

// The worth of a free hour, where there is one, else the least that an hour of a deal earns.
fn least_of(free: u16, standby: u16, earned: u16) -> u16
    ensures { result ≡ least_of «free» standby earned }
{
    if 0 < free { standby } else { earned }
}

// A party's hours over all deals.
fn used(tariff: [u16; 16], free: [u16; 16], partners: usize) -> u32
    requires { partners ≤ 16 }
    ensures { result ≡ used_in tariff «free» partners }
{
    let mut total: u32 = 0;
    for l in 0..partners {
        total += u32::from(tariff[l]) + u32::from(free[l]);
    }
    total
}

// The least that an hour of a deal earns a party.
fn least_earned(
    tariff: [u16; 16],
    earned: [u16; 16],
    free: [u16; 16],
    share: [u16; 16],
    partners: usize,
) -> u16
    requires { partners ≤ 16 }
    ensures { result ≡ least_in tariff earned «free» share partners }
{
    let mut least = NO_HOUR;
    for l in 0..partners {
        let by_tariff = worth_of(tariff[l], earned[l]);
        let in_free_deal = worth_of(free[l], share[l]);
        least = least.min(by_tariff.min(in_free_deal));
    }
    least
}

// The first so many parties of one side, with so many partners, by their rows in four squares: hours by the tariff and what one earns,
// hours of free deals and the share of one.
pub(crate) fn side(
    count: usize,
    partners: usize,
    own: [u16; 16],
    standby: [u16; 16],
    tariff: [[u16; 16]; 16],
    earned: [[u16; 16]; 16],
    free: [[u16; 16]; 16],
    share: [[u16; 16]; 16],
) -> Side
    requires { (count ≤ 16) × (partners ≤ 16) }
    ensures { IsSide count partners own standby tariff earned «free» share result }
{
    let mut fits = true;
    let mut unused = zero_row();
    let mut least = zero_row();
    for p in 0..count {
        let total = used(tariff[p], free[p], partners);
        let hours = left(own[p], total);
        let lowest = least_earned(tariff[p], earned[p], free[p], share[p], partners);
        fits = fits & (total <= u32::from(own[p]));
        unused[p] = hours;
        least[p] = least_of(hours, standby[p], lowest);
    }
    Side {
        fits,
        free: unused,
        standby,
        least,
    }
}
