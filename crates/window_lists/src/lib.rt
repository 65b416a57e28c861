// Lists of windows: the refusal of a list, and the hours that growers and pilots have in common. Each function answers on every list.
#![tactic(auto)]

mod common;
mod places;
mod refusals;

pub use common::common_hours;
pub use refusals::refusal;
