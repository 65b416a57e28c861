// Text for the test programs, to standard output. What a program writes is held to its stored output, not proved.
#![tactic(auto)]

mod answers;
mod lent;

pub use answers::{
    done_bytes, done_digits, done_list, done_numbers, done_text, not_understood, refused,
    refused_bytes, refused_numbers, verdict, worth,
};
pub use lent::{marked_bytes, marked_digits, marked_numbers};

const OUT: i32 = 1;

pub fn text(words: &[u8]) {
    io::write_all(OUT, words);
}

pub fn number(x: usize) {
    amount(x as u64);
}

pub(crate) fn amount(x: u64) {
    io::print_decimal(OUT, x);
}

// A byte in hexadecimal and a number in decimal, a space before each.
fn byte_after_space(b: u8) {
    text(b" ");
    io::print_hex(OUT, b as u64, 2);
}

fn number_after_space(x: u16) {
    text(b" ");
    number(x as usize);
}

pub fn bytes(s: &[u8]) {
    for k in 0..s.len() {
        byte_after_space(s[k]);
    }
}

pub fn numbers(list: &[u16]) {
    for k in 0..list.len() {
        number_after_space(list[k]);
    }
}

fn wide_after_space(x: u32) {
    text(b" ");
    number(x as usize);
}

// The first numbers of a list.
pub(crate) fn wide_numbers(list: &[u32], count: usize) {
    for k in 0..list.len() {
        if k < count {
            wide_after_space(list[k]);
        }
    }
}

pub fn end_line() {
    text(b"\n");
}

// A line that was read, cut where it is long.
pub fn echo(words: &[u8]) {
    text(ascii::front(words, 160));
    if 160 < words.len() {
        text(b" ..");
    }
    end_line();
}

// A count and what it counts, on a line of its own.
pub fn line(x: usize, words: &[u8]) {
    text(b"  ");
    number(x);
    text(b" ");
    text(words);
    end_line();
}

// The first `count` bytes or numbers of what is lent to be written, all if there are fewer.
pub fn room_of_bytes<'a>(s: &'a mut [u8], count: usize) -> &'a mut [u8] {
    if count < s.len() { &mut s[..count] } else { s }
}

pub fn room_of_numbers<'a>(list: &'a mut [u16], count: usize) -> &'a mut [u16] {
    if count < list.len() {
        &mut list[..count]
    } else {
        list
    }
}
