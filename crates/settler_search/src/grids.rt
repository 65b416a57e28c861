// The search of each grid.
use super::printed::{Grid, Settlements, Tickets};
use super::tally::TICKETS;
use super::{every, settled, worths};
use plain::{Most, count, first_ticket, no_counts};

fn of_ticket(file: &[u8; 27], with_every: bool, tally: &mut [usize; 17]) {
    let ticket = ascii::front(file, plain::ticket_length(file));
    let mut lent = settled::no_bytes();
    count(&mut *tally, settled::of_ticket(ticket, &mut lent));
    if plain::is_refused(ticket) {
        return;
    }
    worths::compare(ticket, &lent, &mut *tally);
    if with_every {
        every::of_ticket(ticket, &lent, tally);
    }
}

// Every ticket of a grid, fewer than ten million.
fn of_grid(first: [u8; 27], from: usize, most: Most, with_every: bool) -> [usize; 17] {
    let mut tally = no_counts();
    let mut ticket = first;
    for _ in 0..10000000usize {
        count(&mut tally, TICKETS);
        of_ticket(&ticket, with_every, &mut tally);
        if !plain::next_ticket(&mut ticket, from, most) {
            return tally;
        }
    }
    tally
}

fn most(hours: u8, cap: u8, amount: u8) -> Most {
    Most {
        hours,
        tariff_cap: cap,
        free_cap: cap,
        amount,
    }
}

fn most_of_free_deals(hours: u8, cap: u8, amount: u8) -> Most {
    Most {
        hours,
        tariff_cap: 0,
        free_cap: cap,
        amount,
    }
}

// The tickets from the first one on, whose numbers from a place on turn; and every settlement of each that is not refused, if they are asked
// for. What can not be written is told nowhere.
fn search(rt: &impl Print, grid: Grid, first: [u8; 27], from: usize, with_every: bool) {
    let _ = print!(rt; "{grid}");
    let counts = of_grid(first, from, grid.most, with_every);
    let _ = print!(rt; "{}", Tickets { counts });
    if with_every {
        let _ = print!(rt; "{}", Settlements { counts });
    }
}

// All hours from 0 to the most.
fn all_hours(rt: &impl Print, growers: u8, pilots: u8, most: Most, with_every: bool) {
    let grid = Grid {
        growers,
        pilots,
        least_hours: 0,
        most,
    };
    search(rt, grid, first_ticket(growers, pilots, 0), 3, with_every);
}

// All hours the most.
fn most_hours(rt: &impl Print, growers: u8, pilots: u8, most: Most) {
    let grid = Grid {
        growers,
        pilots,
        least_hours: most.hours,
        most,
    };
    let first = first_ticket(growers, pilots, most.hours);
    search(rt, grid, first, plain::pairs_begin(&first), false);
}

pub(crate) fn all(rt: &impl Print) {
    all_hours(rt, 1, 1, most(3, 2, 3), true);
    all_hours(rt, 1, 2, most(2, 1, 2), true);
    all_hours(rt, 2, 1, most(2, 1, 2), true);
    all_hours(rt, 1, 2, most(3, 2, 1), false);
    all_hours(rt, 2, 1, most(3, 2, 1), false);
    most_hours(rt, 1, 2, most(2, 2, 3));
    most_hours(rt, 2, 1, most(2, 2, 3));
    all_hours(rt, 2, 2, most(2, 1, 1), false);
    most_hours(rt, 2, 2, most(1, 1, 2));
    most_hours(rt, 2, 2, most_of_free_deals(2, 2, 2));
}
