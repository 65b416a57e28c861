// What the free-deal hours of a settlement gain together, and the greatest such worth of a ticket: every feasible settlement is tried.
ghost use Rattle.std.specs.Prelude.{◌<◌};

use super::faults::is_feasible;
use super::numbers::{cap, deals, hours, is_free, joint_gain};
use super::settlements::{first_settlement, next_settlement};

fn has_tariff_deal(ticket: &[u8]) -> bool {
    (0..deals(ticket)).any(|deal| !is_free(deal) && cap(ticket, deal) > 0)
}

fn gain(ticket: &[u8], settlement: &[u8], deal: u8) -> usize
    ensures { result < 65536 }
{
    if is_free(deal) {
        usize::from(hours(settlement, deal)) * usize::from(joint_gain(ticket, deal))
    } else {
        0
    }
}

// By a loop, as the hours of a party.
fn worth(ticket: &[u8], settlement: &[u8]) -> usize {
    let mut sum: usize = 0;
    for deal in 0..deals(ticket) {
        sum += gain(ticket, settlement, deal);
    }
    sum
}

// The greater of a worth and that of a settlement, if it is feasible.
fn with_settlement(ticket: &[u8], settlement: &[u8; 15], most: usize) -> usize {
    let x = worth(ticket, settlement);
    if most < x && is_feasible(ticket, settlement) {
        x
    } else {
        most
    }
}

// There are fewer than a million within the ticket's limits.
fn best(ticket: &[u8]) -> usize {
    let mut settlement = first_settlement(ticket);
    let mut most: usize = 0;
    for _ in 0..1000000usize {
        most = with_settlement(ticket, &settlement, most);
        if !next_settlement(&mut settlement, ticket) {
            return most;
        }
    }
    most
}

// The greatest worth of a ticket's feasible settlements, where it is promised of a sound one: not where there is a tariff deal.
pub fn greatest_worth(ticket: &[u8]) -> Option<usize> {
    if has_tariff_deal(ticket) {
        return None;
    }
    Some(best(ticket))
}
