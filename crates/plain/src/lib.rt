// Small tickets, whether they are refused, their settlements, the verdict on a settlement by the words of the paper, and the greatest worth
// of all of them, for the searches of the test programs. A ticket here has at most two growers and two pilots, and all numbers are below
// 128, so that a number is a byte.
#![tactic(auto)]

mod faults;
mod numbers;
mod refusals;
mod settlements;
mod spares;
mod tally;
mod tickets;
mod worths;

pub use faults::{Answer, Kind, is_sound, verdict};
pub use numbers::deals;
pub use refusals::{WITHOUT_HOURS, is_refused};
pub use settlements::{first_settlement, limit, next_settlement, settlement_length};
pub use tally::{count, no_counts};
pub use tickets::{Most, first_ticket, next_ticket, pairs_begin, ticket_length};
pub use worths::greatest_worth;
