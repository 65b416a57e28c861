// Rows: each loop does the same at all sixteen places, so that it becomes vector code.
use crate::saturating::{ALL, greater, plus};

fn eight() -> [u16; 8] {
    [0; 8]
}

// Sixteen numbers are folded in halves: a fold of one after another is no vector code.
fn least_halves(row: &[u16; 16], half: &mut [u16; 8]) {
    for j in 0..8usize {
        half[j] = row[j].min(row[j + 8]);
    }
}

fn least_quarter(half: &[u16; 8], j: usize) -> u16 {
    half[j % 4].min(half[j % 4 + 4])
}

pub(crate) fn least(row: &[u16; 16]) -> u16 {
    let mut half = eight();
    least_halves(row, &mut half);
    let even = least_quarter(&half, 0).min(least_quarter(&half, 2));
    let odd = least_quarter(&half, 1).min(least_quarter(&half, 3));
    even.min(odd)
}

fn greatest_halves(row: &[u16; 16], half: &mut [u16; 8]) {
    for j in 0..8usize {
        half[j] = greater(row[j], row[j + 8]);
    }
}

fn greatest_quarter(half: &[u16; 8], j: usize) -> u16 {
    greater(half[j % 4], half[j % 4 + 4])
}

pub(crate) fn greatest(row: &[u16; 16]) -> u16 {
    let mut half = eight();
    greatest_halves(row, &mut half);
    let even = greater(greatest_quarter(&half, 0), greatest_quarter(&half, 2));
    let odd = greater(greatest_quarter(&half, 1), greatest_quarter(&half, 3));
    greater(even, odd)
}

fn bit_if(number: u16, value: u16, bit: u16) -> u16 {
    if number == value { bit } else { 0 }
}

fn place_halves(row: &[u16; 16], value: u16, bits: &[u16; 16], half: &mut [u16; 8]) {
    for j in 0..8usize {
        half[j] = bit_if(row[j], value, bits[j]) | bit_if(row[j + 8], value, bits[j + 8]);
    }
}

fn place_quarter(half: &[u16; 8], j: usize) -> u16 {
    half[j % 4] | half[j % 4 + 4]
}

// The places of a value. The bit of each place comes in a row of the state: written here, the bits are shifted one by one.
pub(crate) fn places(row: &[u16; 16], value: u16, bits: &[u16; 16]) -> u32 {
    let mut half = eight();
    place_halves(row, value, bits, &mut half);
    let even = place_quarter(&half, 0) | place_quarter(&half, 2);
    let odd = place_quarter(&half, 1) | place_quarter(&half, 3);
    u32::from(even | odd)
}

// One more than each.
pub(crate) fn one_more(row: &mut [u16; 16]) {
    for j in 0..16usize {
        row[j] = plus(row[j], 1);
    }
}

fn chosen(test: u16, value: u16) -> u16 {
    if test == 0 { 0 } else { value }
}

// The numbers where the test is not 0, else 0.
pub(crate) fn where_any(test: &[u16; 16], row: &[u16; 16], to: &mut [u16; 16]) {
    for j in 0..16usize {
        to[j] = chosen(test[j], row[j]);
    }
}

fn price_to_begin(hours: u16) -> u16 {
    if hours == 0 {
        crate::state::ABOVE_PRICES
    } else {
        0
    }
}

// Above every price for a pilot who has no hours at all.
pub(crate) fn prices(hours: &[u16; 16], to: &mut [u16; 16]) {
    for j in 0..16usize {
        to[j] = price_to_begin(hours[j]);
    }
}

// What a tariff offers now.
fn by_tariff(open: u16, pay: u16, asked: u16) -> u16 {
    if asked <= pay { open } else { 0 }
}

pub(crate) fn tariff_offers(
    tariff: &[u16; 16],
    pay: &[u16; 16],
    asked: &[u16; 16],
    to: &mut [u16; 16],
) {
    for j in 0..16usize {
        to[j] = by_tariff(tariff[j], pay[j], asked[j]);
    }
}

// The better offer of each pilot, by tariff or free deal. Not in one loop with the tariffs: that would become branches.
pub(crate) fn better_offers(
    free: &[u16; 16],
    price: &[u16; 16],
    by_tariff: &[u16; 16],
    to: &mut [u16; 16],
) {
    for j in 0..16usize {
        to[j] = greater(by_tariff[j], free[j].saturating_sub(price[j]));
    }
}

// The free deals of pilots who are not reached.
pub(crate) fn unreached(free: &[u16; 16], reached: &[u16; 16], to: &mut [u16; 16]) {
    for j in 0..16usize {
        to[j] = free[j] & !reached[j];
    }
}

// When free deals tie with an hour that is worth so much now and falls.
pub(crate) fn times(
    free: &[u16; 16],
    price: &[u16; 16],
    reached: &[u16; 16],
    worth: u16,
    now: u16,
    to: &mut [u16; 16],
) {
    for j in 0..16usize {
        to[j] = plus(worth.saturating_sub(free[j].saturating_sub(price[j])), now) | reached[j];
    }
}

// What is kept where nothing is less.
fn unless_less(by: u16, kept: u16, other: u16) -> u16 {
    if by == 0 { kept } else { other }
}

// By how much each of the other numbers is less.
pub(crate) fn differences(row: &[u16; 16], other: &[u16; 16], to: &mut [u16; 16]) {
    for j in 0..16usize {
        to[j] = row[j].saturating_sub(other[j]);
    }
}

pub(crate) fn lower(row: &mut [u16; 16], by: &[u16; 16]) {
    for j in 0..16usize {
        row[j] = row[j].saturating_sub(by[j]);
    }
}

// A value where something is less.
pub(crate) fn note(row: &mut [u16; 16], by: &[u16; 16], value: u16) {
    for j in 0..16usize {
        row[j] = unless_less(by[j], row[j], value);
    }
}

// After what time a tariff deal ties: what a pilot reached asks for rises meanwhile.
fn wait(offer: u16, pay: u16, asked: u16, worth: u16, reached: u16) -> u16 {
    let wait = worth.saturating_sub(offer);
    if plus(asked, wait & reached) <= pay {
        wait
    } else {
        ALL
    }
}

pub(crate) fn tariff_waits(
    offers: &[u16; 16],
    pay: &[u16; 16],
    asked: &[u16; 16],
    reached: &[u16; 16],
    worth: u16,
    to: &mut [u16; 16],
) {
    for j in 0..16usize {
        to[j] = wait(offers[j], pay[j], asked[j], worth, reached[j]);
    }
}

// What an hour is worth when so much is taken from it; all ones stay.
fn worth(gain: u16, by: u16) -> u16 {
    if gain == ALL {
        ALL
    } else {
        gain.saturating_sub(by)
    }
}

pub(crate) fn worths(gain: &[u16; 16], by: u16, to: &mut [u16; 16]) {
    for k in 0..16usize {
        to[k] = worth(gain[k], by);
    }
}

// When growers are to be looked at whose hours are worth less than those known before.
pub(crate) fn look_times(
    looks: &mut [u16; 16],
    by: &[u16; 16],
    worth: &[u16; 16],
    most: &[u16; 16],
    now: u16,
) {
    for k in 0..16usize {
        looks[k] = unless_less(by[k], looks[k], plus(worth[k].saturating_sub(most[k]), now));
    }
}

pub(crate) fn lift(row: &mut [u16; 16], reached: &[u16; 16], by: u16) {
    for j in 0..16usize {
        row[j] = plus(row[j], by & reached[j]);
    }
}
