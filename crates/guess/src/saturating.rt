// Numbers that stay within 16 bits.

// All ones: no time, no worth, or a mark.
pub(crate) const ALL: u16 = 65535;

pub(crate) fn plus(a: u16, b: u16) -> u16 {
    if ALL - b < a { ALL } else { a + b }
}

pub(crate) fn greater(a: u16, b: u16) -> u16 {
    if a < b { b } else { a }
}
