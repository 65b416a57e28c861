// Buffers to lend, filled with a mark that no answer ends with: the last byte of a number has no top bit, and no number is as large.
ghost use Rattle.std.specs.Prelude.{◌≡◌, length};

const MARKED_NUMBER: u16 = 0xFFFF;

const MARKED_BYTE: u8 = 0xFF;

// More places than any ticket, settlement or sheet needs.
const ROOM: usize = 8300;

pub fn marked_numbers() -> [u16; 8300] {
    [MARKED_NUMBER; ROOM]
}

pub fn marked_bytes() -> [u8; 8300] {
    [MARKED_BYTE; ROOM]
}

// Places for the digits of any number.
pub fn marked_digits() -> [u8; 20]
    ensures { length result ≡ 20 }
{
    [MARKED_BYTE; 20]
}

fn next(x: usize) -> usize {
    if x < ROOM { x + 1 } else { x }
}

// How many places at the end still hold the mark.
pub(crate) fn kept_numbers(list: &[u16]) -> usize {
    let mut kept: usize = 0;
    for k in 0..list.len() {
        kept = if list[k] == MARKED_NUMBER {
            next(kept)
        } else {
            0
        };
    }
    kept
}

pub(crate) fn kept_bytes(s: &[u8]) -> usize {
    let mut kept: usize = 0;
    for k in 0..s.len() {
        kept = if s[k] == MARKED_BYTE { next(kept) } else { 0 };
    }
    kept
}

// How many places before the first that was written still hold the mark.
pub(crate) fn kept_before(s: &[u8]) -> usize {
    let mut kept: usize = 0;
    while kept < s.len() && s[kept] == MARKED_BYTE {
        kept += 1;
    }
    kept
}
