// A line of the desk as a call. Every function equals a definition of specs/.
#![tactic(auto)]

mod call;
mod number;
mod split;

pub use call::{Call, Fault, call_of};
pub use split::word;
