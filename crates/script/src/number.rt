// A word as a number, in decimal or in hexadecimal digits.
use super::words::{before, without_words};

// Stands for what is no number: those of the cases have at most five decimal digits.
pub(crate) const NONE: usize = 100000;

#[derive(Clone, Copy)]
pub(crate) enum Base {
    Ten,
    Sixteen,
}

fn digit(sign: u8) -> usize {
    match sign {
        b'0'..=b'9' => (sign - b'0') as usize,
        b'a'..=b'f' => (sign - b'a') as usize + 10,
        _ => NONE,
    }
}

// A number with one digit more. A byte has no more than two.
fn ten_times(x: usize, digit: usize) -> usize {
    if 10000 <= x {
        return NONE;
    }
    if digit < 10 { x * 10 + digit } else { NONE }
}

fn sixteen_times(x: usize, digit: usize) -> usize {
    if 16 <= x {
        return NONE;
    }
    if digit < 16 { x * 16 + digit } else { NONE }
}

fn with_digit(x: usize, base: Base, digit: usize) -> usize {
    match base {
        Base::Ten => ten_times(x, digit),
        Base::Sixteen => sixteen_times(x, digit),
    }
}

pub(crate) fn number(word: &[u8], base: Base) -> usize {
    if word.len() == 0 {
        return NONE;
    }
    let mut x: usize = 0;
    for k in 0..word.len() {
        x = with_digit(x, base, digit(word[k]));
    }
    x
}

// The number that a word of a text spells. Words count from 0.
pub(crate) fn number_at(text: &[u8], place: usize) -> usize {
    number(before(without_words(text, place), b' '), Base::Ten)
}
