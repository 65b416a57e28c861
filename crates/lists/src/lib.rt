// Decimal numbers read from a text into a lent list.
#![tactic(auto)]

mod text;

pub use text::{ListError, read_numbers, white};
