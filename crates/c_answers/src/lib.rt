// What C gets of a settlement: the number of its verdict, that of its worth, and its account in a lent list.
#![tactic(auto)]

mod lending; // lending.rt: an account copied into a lent list
mod marks; // marks.rt: the values of a verdict, and its worth, in one number

pub use lending::lend_account;
pub use marks::{mark_number, worth_number};
