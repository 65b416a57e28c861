// Every fault of a settlement, in the order of the paper: pair by pair, grower by grower, pilot by pilot, deal by deal. Somebody who is over
// his hours has no free hours.
use crate::settlements::Settled;
use crate::spares::{cheapest, flown};
use market::Deal;
use tables::{Quantity, Side};
use verdicts::{Verdict, deal_fault, pair_fault};

// Of a pair each fault counts, and so each test stands alone: the numbers of the others are such that they hold.
fn of_pair(settled: Settled, i: u16, j: u16) -> [Option<Verdict>; 3] {
    let grower = usize::from(i);
    let pilot = usize::from(j);
    let by_tariff = settled.agreed(Quantity::TariffHours, i, j);
    let tariff_cap = settled.term(Quantity::TariffCap, i, j);
    let free = settled.agreed(Quantity::FreeDealHours, i, j);
    let free_cap = settled.term(Quantity::FreeCap, i, j);
    let pay = settled.agreed(Quantity::Pay, i, j);
    let joint_gain = settled.term(Quantity::JointGain, i, j);
    [
        pair_fault(grower, pilot, by_tariff, tariff_cap, 0, 0, 0, 0),
        pair_fault(grower, pilot, 0, 0, free, free_cap, 0, 0),
        pair_fault(grower, pilot, 0, 0, free, free, pay, joint_gain),
    ]
}

// Somebody who flies more hours than he has.
fn of_party(settled: Settled, side: Side, who: u16) -> Option<Verdict> {
    let place = usize::from(who);
    if flown(settled, side, place) <= u32::from(settled.own_hours(side, who)) {
        return None;
    }
    match side {
        Side::Growers => Some(Verdict::GrowerOverHours { grower: place }),
        Side::Pilots => Some(Verdict::PilotOverHours { pilot: place }),
    }
}

// Which hours and which cap are a deal's.
fn hours_in(deal: Deal) -> Quantity {
    match deal {
        Deal::Tariff => Quantity::TariffHours,
        Deal::Free => Quantity::FreeDealHours,
    }
}

fn cap_in(deal: Deal) -> Quantity {
    match deal {
        Deal::Tariff => Quantity::TariffCap,
        Deal::Free => Quantity::FreeCap,
    }
}

// What is left of somebody's hours.
fn free_hours(settled: Settled, side: Side, who: u16) -> u16 {
    numbers::left(
        settled.own_hours(side, who),
        flown(settled, side, usize::from(who)),
    )
}

// What the cheapest spare of somebody for a deal is worth.
fn spare_worth(settled: Settled, side: Side, i: u16, j: u16, deal: Deal) -> Option<u16> {
    cheapest(settled, side, usize::from(i), usize::from(j), deal).map(|found| found.worth())
}

// The count of deals is not told with these faults.
fn of_deal(settled: Settled, i: u16, j: u16, deal: Deal) -> Option<Verdict> {
    deal_fault(
        usize::from(i),
        usize::from(j),
        deal,
        0,
        settled.agreed(hours_in(deal), i, j),
        settled.term(cap_in(deal), i, j),
        free_hours(settled, Side::Growers, i),
        free_hours(settled, Side::Pilots, j),
        spare_worth(settled, Side::Growers, i, j, deal),
        spare_worth(settled, Side::Pilots, i, j, deal),
        settled.term(Quantity::TariffGain, i, j),
        settled.term(Quantity::TariffPay, i, j),
        settled.term(Quantity::JointGain, i, j),
    )
}

// Of a pair three faults and two deals, and everybody's hours: as many as there can be.
pub const MOST_FAULTS: usize = 1312;

fn add(list: &mut [Verdict], count: usize, fault: Option<Verdict>) -> usize {
    match fault {
        Some(verdict) if count < list.len() => {
            list[count] = verdict;
            count + 1
        }
        _ => count,
    }
}

// Lists the faults of a settlement from the front of a lent list, as far as it goes, and answers them. By the numbers of the two: a pair is
// looked up in both lists.
pub fn faults_of<'l>(settled: Settled, list: &'l mut [Verdict]) -> &'l [Verdict] {
    let growers = settled.parties(Side::Growers);
    let pilots = settled.parties(Side::Pilots);
    let mut count = 0;
    for i in 0..growers {
        for j in 0..pilots {
            for fault in of_pair(settled, i, j) {
                count = add(&mut *list, count, fault);
            }
        }
    }
    for side in [Side::Growers, Side::Pilots] {
        for who in 0..settled.parties(side) {
            count = add(&mut *list, count, of_party(settled, side, who));
        }
    }
    for i in 0..growers {
        for j in 0..pilots {
            for deal in [Deal::Tariff, Deal::Free] {
                count = add(&mut *list, count, of_deal(settled, i, j, deal));
            }
        }
    }
    &list[..count.min(list.len())]
}
