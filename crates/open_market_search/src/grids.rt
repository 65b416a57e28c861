// The search of each grid.
use super::calls::Which;
use super::{opened, printed};
use plain::{Most, first_ticket, no_counts};

// Every ticket of a grid, by hours from 0 on: fewer than ten thousand.
fn of_grid(growers: u8, pilots: u8, most: Most, which: Which, longest: usize) -> [usize; 17] {
    let mut tally = no_counts();
    let mut ticket = first_ticket(growers, pilots, 0);
    for turn in 0..10000usize {
        opened::of_ticket(&ticket, which, longest, &mut tally);
        if !plain::next_ticket(&mut ticket, 3, most) {
            return tally;
        }
    }
    tally
}

fn most(hours: u8, tariff_cap: u8, free_cap: u8, amount: u8) -> Most {
    Most {
        hours,
        tariff_cap,
        free_cap,
        amount,
    }
}

// Each call of those around the limits.
fn single_calls() {
    printed::tally(
        b"1 by 1, hours to 2, caps to 1, amounts to 1; each call around the limits\n",
        of_grid(1, 1, most(2, 1, 1, 1), Which::AtLimits, 1),
    );
    printed::tally(
        b"1 by 2, hours to 1, caps to 1, amounts 0; each call around the limits\n",
        of_grid(1, 2, most(1, 1, 1, 0), Which::AtLimits, 1),
    );
    printed::tally(
        b"2 by 1, hours to 1, caps to 1, amounts 0; each call around the limits\n",
        of_grid(2, 1, most(1, 1, 1, 0), Which::AtLimits, 1),
    );
}

fn lists_of_three() {
    printed::tally(
        b"1 by 1, hours to 1, caps to 1, amounts to 1; up to three calls\n",
        of_grid(1, 1, most(1, 1, 1, 1), Which::Chosen, 3),
    );
    printed::tally(
        b"1 by 2, hours to 1, tariff caps to 1, free caps 0, amounts 0; up to three calls\n",
        of_grid(1, 2, most(1, 1, 0, 0), Which::Chosen, 3),
    );
    printed::tally(
        b"2 by 1, hours to 1, tariff caps to 1, free caps 0, amounts 0; up to three calls\n",
        of_grid(2, 1, most(1, 1, 0, 0), Which::Chosen, 3),
    );
}

// Here pairs stand in rows of two.
fn lists_of_two() {
    printed::tally(
        b"2 by 2, hours to 1, tariff caps to 1, free caps 0, amounts 0; up to two calls\n",
        of_grid(2, 2, most(1, 1, 0, 0), Which::Chosen, 2),
    );
}

pub(crate) fn all() {
    single_calls();
    lists_of_three();
    lists_of_two();
}
