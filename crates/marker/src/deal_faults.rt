// The walk over deals: verdicts 7 and 8.
ghost use Rattle.std.specs.Prelude.{◌≡◌, ◌+◌, ◌*◌, ◌<◌, ◌≤◌};
ghost use Rattle.market.specs.Tables.{by_deal};
ghost use Rattle.verdicts.specs.Tests.{lines};
ghost use Rattle.marker.specs.Verdict.{deal_number, deals_judged};
ghost use Rattle.marker.specs.Tables.{spare_in, deal_found, Origin, ticket_from, settlement_from};

use crate::Party;
use grid::Sides;
use market::Deal;
use verdicts::{Verdict, cheapest_spare};

// One of two numbers, by the deal.
fn of_deal(deal: Deal, tariff: u16, free: u16) -> u16
    ensures { result ≡ by_deal tariff free deal }
{
    match deal {
        Deal::Tariff => tariff,
        Deal::Free => free,
    }
}

// A party's hours in a deal with partner y.
fn hours_with(party: Party, deal: Deal, y: usize) -> u16
    requires { y < 16 }
    ensures { result ≡ lines party.tariff party.free deal y }
{
    match deal {
        Deal::Tariff => party.tariff[y],
        Deal::Free => party.free[y],
    }
}

// A party's cheapest spare for a deal with partner y, one of so many.
fn spare(party: Party, partners: usize, deal: Deal, y: usize) -> Option<u16>
    requires { partners ≤ 16 }
    ensures { result ≡ spare_in party partners deal y }
{
    let tariff = party.tariff;
    let free = party.free;
    let earned = party.earned;
    let share = party.share;
    cheapest_spare(party.unused, tariff, free, earned, share, partners, deal, y)
}

// How many deals have been looked at, this one included. The product is proved to fit here, once.
fn looked_at(m: usize, i: usize, j: usize, deal: Deal) -> usize
    requires { (m ≤ 16) × (i < 16) × (j < 16) }
    ensures { result ≡ 2 * (i * m + j) + deal_number deal + 1 }
{
    let before = 2 * (i * m + j);
    match deal {
        Deal::Tariff => before + 1,
        Deal::Free => before + 2,
    }
}

// The fault of a deal of grower i, one of n, and pilot j, one of m, by the caps and the joint gain of the pair.
fn deal_fault(
    deal: Deal,
    grower: Party,
    pilot: Party,
    sides: Sides,
    i: usize,
    j: usize,
    tariff_cap: u16,
    free_cap: u16,
    joint_gain: u16,
) -> Option<Verdict>
    requires { (i < 16) × (j < 16) }
    ensures { result ≡ deal_found deal grower pilot sides.growers sides.pilots i j (by_deal tariff_cap free_cap deal) joint_gain }
{
    let hours = hours_with(grower, deal, j);
    let cap = of_deal(deal, tariff_cap, free_cap);
    // at its cap it has no fault, so that no spares are worked out for it
    if cap <= hours {
        return None;
    }
    verdicts::deal_fault(
        i,
        j,
        deal,
        looked_at(sides.pilots, i, j, deal),
        hours,
        cap,
        grower.unused,
        pilot.unused,
        spare(grower, sides.pilots, deal, j),
        spare(pilot, sides.growers, deal, i),
        grower.earned[j],
        pilot.earned[i],
        joint_gain,
    )
}

// The last walk: the first deal that is idle or blocks, growers, pilots and deals in their order; or else sound, with its worth.
pub(crate) fn judge_deals(
    sides: Sides,
    growers: [Party; 16],
    pilots: [Party; 16],
    tariff_cap: [[u16; 16]; 16],
    free_cap: [[u16; 16]; 16],
    joint_gain: [[u16; 16]; 16],
    worth: u64,
) -> Verdict
    ensures { (o : Origin sides.growers sides.pilots growers pilots tariff_cap free_cap joint_gain) →
        result ≡ deals_judged (ticket_from o) (settlement_from o) worth }
{
    let count = 2 * numbers::pairs(sides.growers, sides.pilots);
    let mut verdict = Verdict::Sound { count, worth };
    // by index: a fault names the places, and the walk is left through its label
    'search: for i in 0..sides.growers {
        let grower = growers[i];
        for j in 0..sides.pilots {
            let pilot = pilots[j];
            let mut deal = Deal::Tariff;
            loop {
                let found = deal_fault(
                    deal,
                    grower,
                    pilot,
                    sides,
                    i,
                    j,
                    tariff_cap[i][j],
                    free_cap[i][j],
                    joint_gain[i][j],
                );
                if let Some(fault) = found {
                    verdict = fault;
                    break 'search;
                }
                match deal {
                    Deal::Tariff => deal = Deal::Free,
                    Deal::Free => break,
                }
            }
        }
    }
    verdict
}
