// Sets of up to 16 places, growers or pilots, a bit for each.

// All 16.
pub(crate) const EVERYBODY: u32 = 65535;

// In place of one of them.
pub(crate) const NOBODY: usize = 16;

fn index(x: u32) -> usize {
    x as usize
}

// The first place of a set.
pub(crate) fn first(places: u32) -> usize {
    index(u32::trailing_zeros(places)) % 16
}

pub(crate) fn bit(i: usize) -> u32 {
    1u32 << (i % 16)
}

// The first so many places.
pub(crate) fn first_places(count: usize) -> u32 {
    EVERYBODY >> (16 - numbers::within(count))
}

pub(crate) fn with(places: u32, i: usize) -> u32 {
    places | bit(i)
}

pub(crate) fn without(places: u32, i: usize) -> u32 {
    places & !bit(i)
}

pub(crate) fn without_first(places: u32) -> u32 {
    places & std::num::wrapping_sub_u32(places, 1)
}
