// Answers, each on a line of its own: a refusal, what was written into a lent buffer, a verdict, and a worth.
use super::lent::{kept_before, kept_bytes, kept_numbers};
use super::{amount, bytes, end_line, number, numbers, text, wide_numbers};

fn refusal(why: u8) {
    text(b"  refused ");
    number(why as usize);
}

pub fn refused(why: u8) {
    refusal(why);
    end_line();
}

pub fn not_understood() {
    text(b"  ?\n");
}

// How many places at the end of what was lent kept their content.
fn kept(count: usize) {
    text(b", ");
    number(count);
    text(b" kept");
}

// A refusal that left so many places as they were.
fn refused_with(why: u8, places: usize) {
    refusal(why);
    kept(places);
    end_line();
}

pub fn refused_numbers(why: u8, lent: &[u16]) {
    refused_with(why, kept_numbers(lent));
}

pub fn refused_bytes(why: u8, lent: &[u8]) {
    refused_with(why, kept_bytes(lent));
}

fn done(count: usize, places: usize) {
    text(b"  done ");
    number(count);
    kept(places);
}

// So many places at the front of what was lent were written: their content.
pub fn done_numbers(count: usize, lent: &[u16]) {
    done(count, kept_numbers(lent));
    text(b":");
    numbers(numbers::front(lent, count));
    end_line();
}

pub fn done_bytes(count: usize, lent: &[u8]) {
    done(count, kept_bytes(lent));
    text(b":");
    bytes(ascii::front(lent, count));
    end_line();
}

// A list that was returned: how many numbers it has, and they.
pub fn done_list(count: usize, list: &[u32]) {
    text(b"  done ");
    number(count);
    text(b":");
    wide_numbers(list, count);
    end_line();
}

// The same of text, on lines of its own.
pub fn done_text(count: usize, lent: &[u8]) {
    done(count, kept_bytes(lent));
    end_line();
    text(ascii::front(lent, count));
}

// Digits at the end of what was lent, from a place on, and how many places before them kept their content.
pub fn done_digits(first: usize, lent: &[u8]) {
    text(b"  from ");
    number(first);
    kept(kept_before(lent));
    text(b": ");
    if first < lent.len() {
        text(&lent[first..]);
    }
    end_line();
}

fn place(x: usize) {
    number(x);
    text(b" ");
}

fn deal(free: bool) {
    if free {
        text(b"free ");
    } else {
        text(b"tariff ");
    }
}

// A verdict as the paper lists it: its number, grower, pilot, deal and count.
pub fn verdict(which: usize, grower: usize, pilot: usize, free: bool, count: usize) {
    text(b"  ");
    place(which);
    place(grower);
    place(pilot);
    deal(free);
    number(count);
    end_line();
}

// The number of a verdict, and the worth that is given with it.
pub fn worth(which: usize, euros: u64) {
    text(b"  ");
    number(which);
    text(b" worth ");
    amount(euros);
    end_line();
}
