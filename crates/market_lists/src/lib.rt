// Open markets in lists that are lent, for callers that hold no struct of ours: the places of a ticket's numbers, those of a
// settlement's, and two rows of free hours, the growers' and the pilots'.
#![tactic(auto)]

mod copying;
mod lending;

pub use lending::{call, open, write_settlement};

// How many numbers that is.
pub const MARKET: usize = 2118;
