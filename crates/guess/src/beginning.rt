// The state before anybody asks, and what is taken from it at the end.
use crate::rows;
use crate::state::{
    ASKED, BITS, FREE_CAP, FREE_DEAL_HOURS, FREE_OPEN, GROWER_FREE, HAS_TARIFFS, JOINT_GAIN, MOST,
    PAID, PILOT_FREE, PRICE, ROWS, SHARED, State, TARIFF_CAP, TARIFF_GAIN, TARIFF_OPEN, TARIFF_PAY,
    WORST, all_ones, bits, set,
};

fn no_hours(s: &mut State) {
    let none = all_ones();
    s[ROWS][WORST] = none;
    s[ROWS][MOST] = none;
    s[PAID] = [none; 16];
    s[SHARED] = [none; 16];
}

fn begin_prices(s: &mut State, pilot_hours: &[u16; 16]) {
    let mut prices = grid::zero_row();
    rows::prices(pilot_hours, &mut prices);
    s[ROWS][PRICE] = prices;
    s[ROWS][ASKED] = prices;
}

pub(crate) fn parties(s: &mut State, grower_hours: [u16; 16], pilot_hours: [u16; 16]) {
    no_hours(&mut *s);
    begin_prices(&mut *s, &pilot_hours);
    s[ROWS][GROWER_FREE] = grower_hours;
    s[ROWS][PILOT_FREE] = pilot_hours;
    s[ROWS][BITS] = bits();
}

fn tariff_row(s: &mut State, i: usize) {
    let cap = s[TARIFF_CAP][i % 16];
    let mut gain = s[TARIFF_GAIN][i % 16];
    let mut room = cap;
    rows::one_more(&mut gain);
    rows::where_any(&cap, &gain, &mut room);
    s[TARIFF_GAIN][i % 16] = gain;
    s[TARIFF_OPEN][i % 16] = room;
    set(s, HAS_TARIFFS, i, rows::greatest(&room));
}

pub(crate) fn tariffs(
    s: &mut State,
    growers: usize,
    cap: [[u16; 16]; 16],
    gain: [[u16; 16]; 16],
    pay: [[u16; 16]; 16],
) {
    s[TARIFF_CAP] = cap;
    s[TARIFF_GAIN] = gain;
    s[TARIFF_PAY] = pay;
    for i in 0..growers {
        tariff_row(&mut *s, i);
    }
}

fn free_row(s: &mut State, i: usize) {
    let cap = s[FREE_CAP][i % 16];
    let mut gain = s[JOINT_GAIN][i % 16];
    let mut room = cap;
    rows::one_more(&mut gain);
    rows::where_any(&cap, &gain, &mut room);
    s[JOINT_GAIN][i % 16] = gain;
    s[FREE_OPEN][i % 16] = room;
}

pub(crate) fn free_deals(
    s: &mut State,
    growers: usize,
    cap: [[u16; 16]; 16],
    joint_gain: [[u16; 16]; 16],
) {
    s[FREE_CAP] = cap;
    s[JOINT_GAIN] = joint_gain;
    for i in 0..growers {
        free_row(&mut *s, i);
    }
}

fn pay_row(s: &State, i: usize) -> [u16; 16] {
    let mut pay = grid::zero_row();
    rows::where_any(&s[FREE_DEAL_HOURS][i % 16], &s[ROWS][PRICE], &mut pay);
    pay
}

// The price, where there are free-deal hours.
pub(crate) fn pays(s: &State, growers: usize) -> [[u16; 16]; 16] {
    let mut pay = grid::zeros();
    for i in 0..growers {
        pay[i % 16] = pay_row(s, i);
    }
    pay
}
