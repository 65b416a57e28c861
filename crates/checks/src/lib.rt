// What is wrong with one number of a document: its refusal, if it has one.
#![tactic(auto)]

mod hours; // hours.rt: who has no hours
mod refusals; // refusals.rt: the refusals and their numbers
mod settlement; // settlement.rt: the places of a settlement
mod ticket; // ticket.rt: the fields of a ticket

pub use hours::{noted, pair_has_none};
pub use refusals::{Document, Refusal, Refusals, must, refusals_of};
pub use settlement::settlement_fault;
pub use ticket::{Field, fault_of, pair_passes};
