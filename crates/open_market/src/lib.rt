// A market that is held open: a ticket's numbers and those of a sound settlement of it, which calls change.
#![tactic(auto)]

mod calls;
mod held;
mod opening;
mod replaying;

pub use calls::{market_after, set_grower_hours, set_pair, set_pilot_hours};
pub use held::Market;
pub use offers::Terms;
pub use opening::open;
pub use replaying::replay;
