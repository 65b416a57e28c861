// The state of a guess: twelve squares, the last of which is rows of parties. One array of them, so that a function is lent it whole.
//
// Prices are whole. A pilot with a free hour has price 0 and takes every tariff; a full one takes what pays more than his price. Free-deal
// hours all pay the price. Offers are what an hour brings the grower, and 1; 0 is no offer.
use crate::rows;
use crate::saturating::ALL;

pub(crate) type State = [[[u16; 16]; 16]; 12];

// Above every price.
pub(crate) const ABOVE_PRICES: u16 = 60000;

// In place of a pilot: the grower who asks has the hours free.
pub(crate) const SOURCE: usize = 16;

// The ticket, growers by pilots; gains and 1.
pub(crate) const TARIFF_CAP: usize = 0;

pub(crate) const TARIFF_GAIN: usize = 1;

pub(crate) const TARIFF_PAY: usize = 2;

pub(crate) const FREE_CAP: usize = 3;

pub(crate) const JOINT_GAIN: usize = 4;

// The same gains where the deal has room, else 0.
pub(crate) const TARIFF_OPEN: usize = 5;

pub(crate) const FREE_OPEN: usize = 6;

// The hours, growers by pilots.
pub(crate) const TARIFF_HOURS: usize = 7;

pub(crate) const FREE_DEAL_HOURS: usize = 8;

// Pilots by growers: tariff pay, and joint gain and 1, of pairs that hold such hours, else all ones.
pub(crate) const PAID: usize = 9;

pub(crate) const SHARED: usize = 10;

pub(crate) const ROWS: usize = 11;

// Of pilots: the price, the least tariff pay that is taken, the least that a held tariff hour pays, hours that are free.
pub(crate) const PRICE: usize = 0;

pub(crate) const ASKED: usize = 1;

pub(crate) const WORST: usize = 2;

pub(crate) const PILOT_FREE: usize = 3;

// Of growers: hours that are free, what no open deal offers more than, and 0 for whoever has no tariffs.
pub(crate) const GROWER_FREE: usize = 4;

pub(crate) const MOST: usize = 5;

pub(crate) const HAS_TARIFFS: usize = 6;

// Of a search. Pilots: all ones if the price rises; when one is reached, and over whom (see `ways`).
pub(crate) const REACHED: usize = 7;

pub(crate) const JOINS: usize = 8;

pub(crate) const WAYS: usize = 9;

// Growers: what the least hour with those reached is worth, all ones if there is none; with whom that is; when to look at one; all ones
// if nobody has looked since.
pub(crate) const WORTHS: usize = 10;

pub(crate) const WITH: usize = 11;

pub(crate) const LOOKS: usize = 12;

pub(crate) const UNSEEN: usize = 13;

// The bit of each place.
pub(crate) const BITS: usize = 14;

pub(crate) fn bits() -> [u16; 16] {
    [
        1, 2, 4, 8, 16, 32, 64, 128, 256, 512, 1024, 2048, 4096, 8192, 16384, 32768,
    ]
}

pub(crate) fn nothing() -> [[[u16; 16]; 16]; 12] {
    let none = grid::zeros();
    [none; 12]
}

pub(crate) fn all_ones() -> [u16; 16] {
    [ALL; 16]
}

pub(crate) fn get(s: &State, square: usize, i: usize, j: usize) -> u16 {
    s[square % 12][i % 16][j % 16]
}

pub(crate) fn put(s: &mut State, square: usize, i: usize, j: usize, v: u16) {
    s[square % 12][i % 16][j % 16] = v;
}

// The same of a row of parties.
pub(crate) fn of(s: &State, row: usize, j: usize) -> u16 {
    s[ROWS][row % 16][j % 16]
}

pub(crate) fn set(s: &mut State, row: usize, j: usize, v: u16) {
    s[ROWS][row % 16][j % 16] = v;
}

pub(crate) fn place_of(s: &State, row: usize, j: usize) -> usize {
    usize::from(of(s, row, j)) % 16
}

pub(crate) fn least_of(s: &State, square: usize, i: usize) -> u16 {
    rows::least(&s[square % 12][i % 16])
}

// The places of a value in a row that is not of the state.
pub(crate) fn places_in(s: &State, row: &[u16; 16], value: u16) -> u32 {
    rows::places(row, value, &s[ROWS][BITS])
}

pub(crate) fn places_of(s: &State, square: usize, i: usize, value: u16) -> u32 {
    rows::places(&s[square % 12][i % 16], value, &s[ROWS][BITS])
}
