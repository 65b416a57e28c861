// The search of each grid, of two growers and two pilots.
use super::files::numbers;
use super::judged::judged;
use super::squares::guess;
use super::tally::{GUESSES, REFUSED, TICKETS};
use super::{altered, one_pilot, printed};
use plain::{Most, count, first_ticket};

fn of_ticket(file: &[u8; 27], tally: &mut [usize; 17]) {
    let ticket = ascii::front(file, plain::ticket_length(file));
    count(&mut *tally, TICKETS);
    if plain::is_refused(ticket) {
        count(tally, REFUSED);
        return;
    }
    let mut lent = plain::first_settlement(ticket);
    let certified = guess(ticket, &numbers(ticket), &mut lent);
    count(&mut *tally, GUESSES + judged(ticket, &lent, certified));
    altered::of_guess(ticket, &lent, &mut *tally);
    one_pilot::of_ticket(file, tally);
}

// Every ticket of a grid, by the numbers from a place on: fewer than a million.
fn of_grid(first: [u8; 27], from: usize, most: Most) -> [usize; 17] {
    let mut tally = plain::no_counts();
    let mut ticket = first;
    for turn in 0..1000000usize {
        of_ticket(&ticket, &mut tally);
        if !plain::next_ticket(&mut ticket, from, most) {
            return tally;
        }
    }
    tally
}

fn most(hours: u8, tariff_cap: u8, free_cap: u8, amount: u8) -> Most {
    Most {
        hours,
        tariff_cap,
        free_cap,
        amount,
    }
}

// All hours from 0 to the most.
fn all_hours(name: &[u8], most: Most) {
    printed::tally(name, of_grid(first_ticket(2, 2, 0), 3, most));
}

// All hours the most.
fn most_hours(name: &[u8], most: Most) {
    let first = first_ticket(2, 2, most.hours);
    printed::tally(name, of_grid(first, plain::pairs_begin(&first), most));
}

// A pair is one of 15, 25, 9 and 9 by its numbers, and there are as many tickets as the fourth power says; in the first grid 16 times as
// many, by the hours. Under a cap of 2 a deal may have both hours and room.
pub(crate) fn all() {
    all_hours(
        b"2 by 2, hours 0 to 1, caps to 1, amounts to 1\n",
        most(1, 1, 1, 1),
    );
    most_hours(
        b"2 by 2, hours 2, tariff caps to 1, free caps to 2, amounts to 1\n",
        most(2, 1, 2, 1),
    );
    most_hours(
        b"2 by 2, hours 2, tariff caps to 2, free caps 0, amounts to 1\n",
        most(2, 2, 0, 1),
    );
    most_hours(
        b"2 by 2, hours 2, tariff caps 0, free caps to 2, amounts to 3\n",
        most(2, 0, 2, 3),
    );
}
