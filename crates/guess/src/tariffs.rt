// What growers are offered, and when a tariff ties.
use crate::rows;
use crate::saturating::{ALL, plus};
use crate::state::{
    ASKED, FREE_OPEN, HAS_TARIFFS, MOST, PRICE, REACHED, ROWS, State, TARIFF_OPEN, TARIFF_PAY, of,
    set,
};

fn tariff_offers(s: &State, i: usize, to: &mut [u16; 16]) {
    rows::tariff_offers(
        &s[TARIFF_OPEN][i % 16],
        &s[TARIFF_PAY][i % 16],
        &s[ROWS][ASKED],
        to,
    );
}

fn offers(s: &State, i: usize, by_tariff: &[u16; 16], to: &mut [u16; 16]) {
    rows::better_offers(&s[FREE_OPEN][i % 16], &s[ROWS][PRICE], by_tariff, to);
}

pub(crate) fn best_offers(s: &mut State, i: usize, to: &mut [u16; 16]) -> u16 {
    let mut by_tariff = grid::zero_row();
    tariff_offers(s, i, &mut by_tariff);
    offers(s, i, &by_tariff, &mut *to);
    let most = rows::greatest(to);
    set(&mut *s, MOST, i, most);
    most
}

fn best_unreached(s: &State, i: usize, by_tariff: &[u16; 16]) -> u16 {
    let mut free = grid::zero_row();
    let mut other = grid::zero_row();
    rows::unreached(&s[FREE_OPEN][i % 16], &s[ROWS][REACHED], &mut free);
    rows::better_offers(&free, &s[ROWS][PRICE], by_tariff, &mut other);
    rows::greatest(&other)
}

// The best that a grower is offered, but for free deals with the pilots reached.
pub(crate) fn best_outside(s: &mut State, i: usize) -> u16 {
    let mut by_tariff = grid::zero_row();
    let mut all = grid::zero_row();
    tariff_offers(s, i, &mut by_tariff);
    offers(s, i, &by_tariff, &mut all);
    set(&mut *s, MOST, i, rows::greatest(&all));
    best_unreached(s, i, &by_tariff)
}

fn tariff_after(s: &State, i: usize, worth: u16) -> u16 {
    let mut offers = grid::zero_row();
    let mut waits = grid::zero_row();
    tariff_offers(s, i, &mut offers);
    let asked = &s[ROWS][ASKED];
    rows::tariff_waits(
        &offers,
        &s[TARIFF_PAY][i % 16],
        asked,
        &s[ROWS][REACHED],
        worth,
        &mut waits,
    );
    rows::least(&waits)
}

// When a tariff deal ties with an hour of a grower that is worth so much now, if it is still open then.
pub(crate) fn tariff_time(s: &State, i: usize, worth: u16, now: u16) -> u16 {
    if of(s, HAS_TARIFFS, i) == 0 {
        return ALL;
    }
    plus(tariff_after(s, i, worth), now)
}
