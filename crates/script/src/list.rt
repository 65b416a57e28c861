// Lists of numbers. `3c` is a number, `3c *32` that number 32 times, `( 01 0a ) *15` what stands in the brackets 15 times. Words are
// parted by spaces. What is not written so, or is too long, has NONE numbers.
use super::number::{Base, NONE, number};
use super::words::{after, before};

// How many numbers have been read, where the last item begins, a number or a group, and where the last group does.
#[derive(Clone, Copy)]
struct Progress {
    count: usize,
    item: usize,
    group: usize,
}

pub fn no_numbers() -> [u16; 2200] {
    [0; 2200]
}

fn no_bytes() -> [u8; 2200] {
    [0; 2200]
}

fn wide(x: u16) -> usize {
    x as usize
}

fn number_in(list: &[u16], k: usize) -> usize {
    if k < list.len() { wide(list[k]) } else { NONE }
}

// Puts a number after the first `count`, and returns how many there are then.
fn put(list: &mut [u16], count: usize, x: usize) -> usize {
    if list.len() <= count {
        return NONE;
    }
    if 65536 <= x {
        return NONE;
    }
    list[count] = x as u16;
    count + 1
}

// Puts the numbers from place `item` to before place `end` there once more, after the first `count`.
fn put_again(list: &mut [u16], item: usize, end: usize, count: usize) -> usize {
    let mut reached = count;
    for k in item..end {
        reached = put(list, reached, number_in(list, k));
    }
    reached
}

fn put_times(list: &mut [u16], item: usize, end: usize, times: usize) -> usize {
    let mut count = end;
    for _k in 1..times {
        count = put_again(list, item, end, count);
    }
    count
}

// Reads a word that says how many times the last item stands there.
fn repeated(list: &mut [u16], read: Progress, word: &[u8]) -> Progress {
    let times = number(after(word, b'*'), Base::Ten);
    let count = if times == 0 || NONE <= times || NONE <= read.count {
        NONE
    } else {
        put_times(list, read.item, read.count, times)
    };
    Progress {
        count,
        item: read.item,
        group: read.group,
    }
}

fn group_begins(read: Progress) -> Progress {
    Progress {
        count: read.count,
        item: read.item,
        group: read.count,
    }
}

fn group_ends(read: Progress) -> Progress {
    Progress {
        count: read.count,
        item: read.group,
        group: read.group,
    }
}

// Reads a word that is a number.
fn one_more(list: &mut [u16], read: Progress, x: usize) -> Progress {
    Progress {
        count: put(list, read.count, x),
        item: read.count,
        group: read.group,
    }
}

// What kind of word it is: its sign, a space if it is empty, a digit if it is a number.
fn kind(word: &[u8]) -> u8 {
    if word.len() == 0 {
        return b' ';
    }
    if word.len() == 1 || word[0] == b'*' {
        return word[0];
    }
    b'0'
}

fn with_word(list: &mut [u16], read: Progress, word: &[u8], base: Base) -> Progress {
    match kind(word) {
        b' ' => read,
        b'(' => group_begins(read),
        b')' => group_ends(read),
        b'*' => repeated(list, read, word),
        _ => one_more(list, read, number(word, base)),
    }
}

// Reads a list, and returns how many numbers it has.
pub(crate) fn numbers(text: &[u8], base: Base, list: &mut [u16]) -> usize {
    let mut rest = text;
    let mut read = Progress {
        count: 0,
        item: 0,
        group: 0,
    };
    while 0 < rest.len() {
        read = with_word(list, read, before(rest, b' '), base);
        let later = after(rest, b' ');
        rest = later;
    }
    read.count
}

fn byte(x: u16) -> u8 {
    (x % 256) as u8
}

// A list that was read in hexadecimal, as bytes.
pub fn as_bytes(list: &[u16; 2200]) -> [u8; 2200] {
    let mut file = no_bytes();
    for k in 0..2200usize {
        file[k] = byte(list[k]);
    }
    file
}
