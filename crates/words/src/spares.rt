// Which spare of a party for a deal is the cheapest: a free hour, which is worth nothing, or an hour of another deal.
use crate::settlements::Settled;
use market::Deal;
use tables::{Quantity, Side};
use verdicts::cheapest_spare;

#[derive(Clone, Copy)]
pub(crate) enum Spare {
    FreeHour,
    Hour {
        partner: usize,
        deal: Deal,
        worth: u16,
    },
}

impl Spare {
    pub(crate) fn worth(&self) -> u16 {
        match *self {
            Spare::FreeHour => 0,
            Spare::Hour { worth, .. } => worth,
        }
    }
}

// A quantity in the row of a grower, or in the column of a pilot, as far as a square reaches: 0 past the last partner. By number, one for
// each partner: a square of all pairs would be read for one row of it.
fn line(list: &[u16], quantity: Quantity, side: Side, who: usize) -> [u16; 16] {
    let growers = numbers::within(tables::growers(list));
    let pilots = numbers::within(tables::pilots(list));
    let (parties, partners) = match side {
        Side::Growers => (growers, pilots),
        Side::Pilots => (pilots, growers),
    };
    let mut row = grid::zero_row();
    if who < parties {
        for l in 0..partners {
            let (i, j) = match side {
                Side::Growers => (who, l),
                Side::Pilots => (l, who),
            };
            row[l] = numbers::entry(list, tables::place(list, quantity, i as u16, j as u16));
        }
    }
    row
}

// What somebody has with each partner: his hours in both deals, and what an hour of each earns him.
#[derive(Clone, Copy)]
struct Dealings {
    tariff: [u16; 16],
    free: [u16; 16],
    earned: [u16; 16],
    share: [u16; 16],
}

// What is left of each number.
fn all_less(from: [u16; 16], what: [u16; 16]) -> [u16; 16] {
    let mut rest = from;
    for (number, less) in rest.iter_mut().zip(what) {
        *number = number.saturating_sub(less);
    }
    rest
}

fn agreed(settled: Settled, quantity: Quantity, side: Side, who: usize) -> [u16; 16] {
    line(settled.settlement, quantity, side, who)
}

fn dealings_of(settled: Settled, side: Side, who: usize) -> Dealings {
    let pay = agreed(settled, Quantity::Pay, side, who);
    let (earned, share) = match side {
        Side::Growers => {
            let joint_gain = line(settled.ticket, Quantity::JointGain, side, who);
            (Quantity::TariffGain, all_less(joint_gain, pay))
        }
        Side::Pilots => (Quantity::TariffPay, pay),
    };
    Dealings {
        tariff: agreed(settled, Quantity::TariffHours, side, who),
        free: agreed(settled, Quantity::FreeDealHours, side, who),
        earned: line(settled.ticket, earned, side, who),
        share,
    }
}

// A sum that stays at the largest number.
fn sum(row: [u16; 16]) -> u32 {
    row.iter().fold(0u32, |total, &hours| total.saturating_add(u32::from(hours)))
}

fn all_hours(tariff: [u16; 16], free: [u16; 16]) -> u32 {
    sum(tariff).saturating_add(sum(free))
}

// The hours that a party flies in all his deals.
pub fn flown(settled: Settled, side: Side, who: usize) -> u32 {
    all_hours(
        agreed(settled, Quantity::TariffHours, side, who),
        agreed(settled, Quantity::FreeDealHours, side, who),
    )
}

// The first hour that is worth so much, but those of a deal with a partner. By index: four rows are read at one place.
fn hour_worth(worth: u16, with: Dealings, own: Deal, partner: usize) -> Option<Spare> {
    for l in 0..16usize {
        let others = l != partner;
        if 0 < with.tariff[l] && with.earned[l] == worth && (others || own != Deal::Tariff) {
            return Some(Spare::Hour {
                partner: l,
                deal: Deal::Tariff,
                worth,
            });
        }
        if 0 < with.free[l] && with.share[l] == worth && (others || own != Deal::Free) {
            return Some(Spare::Hour {
                partner: l,
                deal: Deal::Free,
                worth,
            });
        }
    }
    None
}

// The cheapest spare of grower i for his deal with pilot j, or of pilot j for his deal with grower i.
pub(crate) fn cheapest(
    settled: Settled,
    side: Side,
    i: usize,
    j: usize,
    deal: Deal,
) -> Option<Spare> {
    let (who, partner) = match side {
        Side::Growers => (i, j),
        Side::Pilots => (j, i),
    };
    let with = dealings_of(settled, side, who);
    let hours = numbers::entry(&tables::hours(settled.ticket, side), who);
    if all_hours(with.tariff, with.free) < u32::from(hours) {
        return Some(Spare::FreeHour);
    }
    let worth = cheapest_spare(
        0,
        with.tariff,
        with.free,
        with.earned,
        with.share,
        16,
        deal,
        partner,
    )?;
    hour_worth(worth, with, deal, partner)
}
