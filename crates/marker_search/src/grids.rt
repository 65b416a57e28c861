// The search of each grid.
use super::compare::{ONLY_FREE, TICKETS};
use super::printed::{SEARCHED, Tally};
use super::{beyond, compare};
use plain::{Most, count, no_counts};

// Every settlement within a ticket's limits: at most 729, where each of six numbers takes at most three values, or 1296 with four pairs of
// at most two hours and three pays.
fn within_limits(ticket: &[u8], greatest: Option<usize>, tally: &mut [usize; 17]) {
    let mut settlement = plain::first_settlement(ticket);
    for _ in 0..10000usize {
        compare::within(ticket, &settlement, greatest, &mut *tally);
        if !plain::next_settlement(&mut settlement, ticket) {
            return;
        }
    }
}

fn of_ticket(file: &[u8; 27], tally: &mut [usize; 17]) {
    let ticket = ascii::front(file, plain::ticket_length(file));
    count(&mut *tally, TICKETS);
    if plain::is_refused(ticket) {
        compare::refuse(ticket, tally);
        return;
    }
    let greatest = plain::greatest_worth(ticket);
    if greatest.is_some() {
        count(&mut *tally, ONLY_FREE);
    }
    within_limits(ticket, greatest, &mut *tally);
    beyond::limits(ticket, greatest, tally);
}

// Every ticket of a grid, fewer than a million.
fn of_grid(growers: u8, pilots: u8, most: Most) -> [usize; 17] {
    let mut tally = no_counts();
    let mut ticket = plain::first_ticket(growers, pilots, 0);
    for _ in 0..1000000usize {
        of_ticket(&ticket, &mut tally);
        if !plain::next_ticket(&mut ticket, 3, most) {
            return tally;
        }
    }
    tally
}

// 64 times the hours, and for each of two pairs 9 tariff deals and 5 free ones. Of the tickets in which everybody has hours there are
// 27 * 45 * 45, with 27 * 336 * 336 settlements within their limits, 21 * 16 for the deals of a pair; in the others a pair of somebody
// without hours has no deal.
fn all_deals() -> Most {
    Most {
        hours: 3,
        tariff_cap: 2,
        free_cap: 2,
        amount: 1,
    }
}

// 81 times the hours, and for each of four pairs 4 free deals.
fn only_free_deals() -> Most {
    Most {
        hours: 2,
        tariff_cap: 0,
        free_cap: 1,
        amount: 2,
    }
}

// What can not be written is told nowhere.
pub(crate) fn all(rt: &impl Print) {
    let _ = println!(rt; "{SEARCHED}");
    let all = all_deals();
    let free = only_free_deals();
    let grids = [
        ("one grower and two pilots", 1, 2, all),
        ("two growers and one pilot", 2, 1, all),
        ("two growers and two pilots, free deals only", 2, 2, free),
    ];
    for (grid, growers, pilots, most) in grids {
        let counts = of_grid(growers, pilots, most);
        let _ = print!(rt; "{}", Tally { grid, counts });
    }
}
