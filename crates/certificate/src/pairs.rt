// Whether the deals of growers and pilots are as a certificate wants them. Tests are joined without branches, and sums are avoided, so that
// all of it stays in rows of 16 bits. Loops go by index: a partner stands at the same place of eleven rows, and a grower has the same row of
// eight squares.
ghost use Rattle.std.specs.Prelude.{◌≡◌, ◌+◌, ◌<◌, ◌≤◌, leb};
ghost use Rattle.certificate.specs.Certified.{feasible, worthwhile, tariff_kept, free_kept, pair_kept};
ghost use Rattle.certificate.specs.Rows.{row_kept, sides_kept};

use crate::{Party, Side};

// The caps and the pay are kept.
fn feasible(
    tariff_cap: u16,
    free_cap: u16,
    joint_gain: u16,
    tariff_hours: u16,
    free_deal_hours: u16,
    pay: u16,
) -> bool
    ensures { result ≡ feasible tariff_cap free_cap joint_gain tariff_hours free_deal_hours pay }
{
    let within = (tariff_hours <= tariff_cap) & (free_deal_hours <= free_cap);
    let split = (pay <= joint_gain) & ((0 < free_deal_hours) | (pay == 0));
    within & split
}

// Hours that are flown earn both at least standby.
fn worthwhile(
    grower: Party,
    pilot: Party,
    tariff_gain: u16,
    tariff_pay: u16,
    joint_gain: u16,
    tariff_hours: u16,
    free_deal_hours: u16,
    pay: u16,
) -> bool
    ensures { result ≡ worthwhile grower pilot tariff_gain tariff_pay joint_gain tariff_hours free_deal_hours pay }
{
    let by_tariff = (grower.standby <= tariff_gain) & (pilot.standby <= tariff_pay);
    let by_share = (grower.standby <= joint_gain.saturating_sub(pay)) & (pilot.standby <= pay);
    ((tariff_hours == 0) | by_tariff) & ((free_deal_hours == 0) | by_share)
}

// The tariff deal is at its cap; or it is not idle, and brings one of the two no more than his least hour.
fn tariff_kept(grower: Party, pilot: Party, cap: u16, gain: u16, pay: u16, hours: u16) -> bool
    ensures { result ≡ tariff_kept grower pilot cap gain pay hours }
{
    let full = (grower.free == 0) | (pilot.free == 0);
    let unwelcome = (gain < grower.standby) | (pay < pilot.standby);
    let content = (gain <= grower.least) | (pay <= pilot.least);
    (cap <= hours) | ((full | unwelcome) & content)
}

// A gain is at least as much as two numbers together, and at most.
fn at_least_both(gain: u16, one: u16, other: u16) -> bool
    ensures { result ≡ leb (one + other) gain }
{
    (one <= gain) & (other <= gain.saturating_sub(one))
}

fn at_most_both(gain: u16, one: u16, other: u16) -> bool
    ensures { result ≡ leb gain (one + other) }
{
    gain.saturating_sub(one) <= other
}

// The free deal is at its cap; or it is not idle, and brings both together no more than their least hours.
fn free_kept(grower: Party, pilot: Party, cap: u16, joint_gain: u16, hours: u16) -> bool
    ensures { result ≡ free_kept grower pilot cap joint_gain hours }
{
    let full = (grower.free == 0) | (pilot.free == 0);
    let welcome = at_least_both(joint_gain, grower.standby, pilot.standby);
    let content = at_most_both(joint_gain, grower.least, pilot.least);
    (cap <= hours) | ((full | !welcome) & content)
}

fn pair_kept(
    grower: Party,
    pilot: Party,
    tariff_cap: u16,
    tariff_gain: u16,
    tariff_pay: u16,
    free_cap: u16,
    joint_gain: u16,
    tariff_hours: u16,
    free_deal_hours: u16,
    pay: u16,
) -> bool
    ensures { result ≡ pair_kept grower pilot tariff_cap tariff_gain tariff_pay free_cap joint_gain
        tariff_hours free_deal_hours pay }
{
    let possible = feasible(
        tariff_cap,
        free_cap,
        joint_gain,
        tariff_hours,
        free_deal_hours,
        pay,
    );
    let earns = worthwhile(
        grower,
        pilot,
        tariff_gain,
        tariff_pay,
        joint_gain,
        tariff_hours,
        free_deal_hours,
        pay,
    );
    possible
        & earns
        & tariff_kept(
            grower,
            pilot,
            tariff_cap,
            tariff_gain,
            tariff_pay,
            tariff_hours,
        )
        & free_kept(grower, pilot, free_cap, joint_gain, free_deal_hours)
}

// The pairs of a grower and the first so many pilots, by the rows of the pilots and of the grower.
fn row_kept(
    grower: Party,
    free: [u16; 16],
    standby: [u16; 16],
    least: [u16; 16],
    count: usize,
    tariff_cap: [u16; 16],
    tariff_gain: [u16; 16],
    tariff_pay: [u16; 16],
    free_cap: [u16; 16],
    joint_gain: [u16; 16],
    tariff_hours: [u16; 16],
    free_deal_hours: [u16; 16],
    pay: [u16; 16],
) -> bool
    requires { count ≤ 16 }
    ensures { result ≡ row_kept grower «free» standby least tariff_cap tariff_gain tariff_pay free_cap joint_gain
        tariff_hours free_deal_hours pay count }
{
    let mut kept = true;
    for j in 0..count {
        let pilot = Party {
            free: free[j],
            standby: standby[j],
            least: least[j],
        };
        let this = pair_kept(
            grower,
            pilot,
            tariff_cap[j],
            tariff_gain[j],
            tariff_pay[j],
            free_cap[j],
            joint_gain[j],
            tariff_hours[j],
            free_deal_hours[j],
            pay[j],
        );
        kept = kept & this;
    }
    kept
}

// The same of n growers and m pilots, by squares.
pub(crate) fn rows_kept(
    n: usize,
    m: usize,
    growers: Side,
    pilots: Side,
    tariff_cap: [[u16; 16]; 16],
    tariff_gain: [[u16; 16]; 16],
    tariff_pay: [[u16; 16]; 16],
    free_cap: [[u16; 16]; 16],
    joint_gain: [[u16; 16]; 16],
    tariff_hours: [[u16; 16]; 16],
    free_deal_hours: [[u16; 16]; 16],
    pay: [[u16; 16]; 16],
) -> bool
    requires { (n ≤ 16) × (m ≤ 16) }
    ensures { result ≡ sides_kept growers pilots m tariff_cap tariff_gain tariff_pay free_cap joint_gain
        tariff_hours free_deal_hours pay n }
{
    // rows of their own: a side that is read in a loop is copied at every turn
    let free = growers.free;
    let standby = growers.standby;
    let least = growers.least;
    let pilots_free = pilots.free;
    let pilots_standby = pilots.standby;
    let pilots_least = pilots.least;
    let mut kept = true;
    for i in 0..n {
        let grower = Party {
            free: free[i],
            standby: standby[i],
            least: least[i],
        };
        kept = kept
            & row_kept(
                grower,
                pilots_free,
                pilots_standby,
                pilots_least,
                m,
                tariff_cap[i],
                tariff_gain[i],
                tariff_pay[i],
                free_cap[i],
                joint_gain[i],
                tariff_hours[i],
                free_deal_hours[i],
                pay[i],
            );
    }
    kept
}
