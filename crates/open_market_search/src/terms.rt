// The terms of a pair that calls set.

// Some within all limits, and some against each.
pub(crate) const CHOSEN: usize = 9;

pub(crate) fn chosen(k: usize) -> [u16; 5] {
    match k {
        0 => [0, 0, 0, 0, 0],
        1 => [1, 1, 2, 0, 0],
        2 => [0, 0, 0, 1, 3],
        3 => [1, 2, 0, 2, 1],
        4 => [2, 1, 1, 1, 2],
        5 => [1, 1, 1, 61, 1],
        6 => [1, 1, 501, 0, 0],
        7 => [0, 0, 1, 1, 1],
        _ => [1, 1, 1, 0, 2],
    }
}

// All of caps and amounts of 0, 1, the limit, and one above it.
pub(crate) const AT_LIMITS: usize = 1024;

fn cap(k: usize) -> u16 {
    match k % 4 {
        0 => 0,
        1 => 1,
        2 => 60,
        _ => 61,
    }
}

fn amount(k: usize) -> u16 {
    match k % 4 {
        0 => 0,
        1 => 1,
        2 => 500,
        _ => 501,
    }
}

pub(crate) fn at_limits(k: usize) -> [u16; 5] {
    [
        cap(k),
        amount(k / 4),
        amount(k / 16),
        cap(k / 64),
        amount(k / 256),
    ]
}
