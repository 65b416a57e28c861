// Hours come into a deal or leave it.
use crate::saturating::{ALL, greater, plus};
use crate::sets::first;
use crate::state::{
    ABOVE_PRICES, ASKED, FREE_CAP, FREE_DEAL_HOURS, FREE_OPEN, JOINT_GAIN, MOST, PAID, PILOT_FREE,
    PRICE, SHARED, State, TARIFF_CAP, TARIFF_GAIN, TARIFF_HOURS, TARIFF_OPEN, TARIFF_PAY, WORST,
    get, least_of, of, places_of, put, set,
};

pub(crate) fn more_free_deal(s: &mut State, i: usize, j: usize, x: u16) {
    let hours = plus(get(s, FREE_DEAL_HOURS, i, j), x);
    put(&mut *s, FREE_DEAL_HOURS, i, j, hours);
    let gain = get(s, JOINT_GAIN, i, j);
    put(&mut *s, SHARED, j, i, gain);
    if hours == get(s, FREE_CAP, i, j) {
        put(&mut *s, FREE_OPEN, i, j, 0);
    }
}

// No open deal offers the grower more than this.
fn offered(s: &mut State, i: usize, offer: u16) {
    let most = greater(of(s, MOST, i), offer);
    set(&mut *s, MOST, i, most);
}

pub(crate) fn less_free_deal(s: &mut State, i: usize, j: usize, x: u16) {
    let hours = get(s, FREE_DEAL_HOURS, i, j).saturating_sub(x);
    put(&mut *s, FREE_DEAL_HOURS, i, j, hours);
    let gain = get(s, JOINT_GAIN, i, j);
    put(&mut *s, FREE_OPEN, i, j, gain);
    let offer = gain.saturating_sub(of(s, PRICE, j));
    offered(&mut *s, i, offer);
    if hours == 0 {
        put(&mut *s, SHARED, j, i, ALL);
    }
}

pub(crate) fn more_tariff(s: &mut State, i: usize, j: usize, x: u16) {
    let hours = plus(get(s, TARIFF_HOURS, i, j), x);
    put(&mut *s, TARIFF_HOURS, i, j, hours);
    let pay = get(s, TARIFF_PAY, i, j);
    put(&mut *s, PAID, j, i, pay);
    let worst = of(s, WORST, j).min(pay);
    set(&mut *s, WORST, j, worst);
    if hours == get(s, TARIFF_CAP, i, j) {
        put(&mut *s, TARIFF_OPEN, i, j, 0);
    }
}

pub(crate) fn less_tariff(s: &mut State, i: usize, j: usize, x: u16) {
    let hours = get(s, TARIFF_HOURS, i, j).saturating_sub(x);
    put(&mut *s, TARIFF_HOURS, i, j, hours);
    let gain = get(s, TARIFF_GAIN, i, j);
    put(&mut *s, TARIFF_OPEN, i, j, gain);
    offered(&mut *s, i, gain);
    if hours == 0 {
        put(&mut *s, PAID, j, i, ALL);
        let worst = least_of(s, PAID, j);
        set(&mut *s, WORST, j, worst);
    }
}

pub(crate) fn more(s: &mut State, tariff: bool, i: usize, j: usize, x: u16) {
    if tariff {
        more_tariff(&mut *s, i, j, x);
    } else {
        more_free_deal(&mut *s, i, j, x);
    }
}

pub(crate) fn room(s: &State, tariff: bool, i: usize, j: usize) -> u16 {
    if tariff {
        get(s, TARIFF_CAP, i, j).saturating_sub(get(s, TARIFF_HOURS, i, j))
    } else {
        get(s, FREE_CAP, i, j).saturating_sub(get(s, FREE_DEAL_HOURS, i, j))
    }
}

// A pilot who has become full, or holds no free-deal hours any more, has what his worst hour pays for price.
pub(crate) fn settle_price(s: &mut State, j: usize) {
    if of(s, PILOT_FREE, j) == 0 {
        if least_of(s, SHARED, j) == ALL {
            let price = greater(of(s, PRICE, j), of(s, WORST, j).min(ABOVE_PRICES));
            set(&mut *s, PRICE, j, price);
        }
        let asked = plus(of(s, PRICE, j), 1);
        set(&mut *s, ASKED, j, asked);
    }
}

// A full pilot has a tariff hour that pays no more than his price: he gives it up for any hour that he takes.
pub(crate) fn has_late(s: &State, j: usize) -> bool {
    of(s, WORST, j) <= of(s, PRICE, j)
}

pub(crate) fn late_grower(s: &State, j: usize) -> usize {
    first(places_of(s, PAID, j, of(s, WORST, j)))
}

// Whether the pilot takes the grower by a tariff that offers at least so much.
pub(crate) fn takes_tariff(s: &State, i: usize, j: usize, worth: u16) -> bool {
    if of(s, ASKED, j) <= get(s, TARIFF_PAY, i, j) {
        worth <= get(s, TARIFF_OPEN, i, j)
    } else {
        false
    }
}
