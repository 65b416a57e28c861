// Tickets and settlements as text: each number after its label, a line for each party and each pair. What is written so is read back, with
// white space and comments as one likes; plain lists of numbers are read too.
#![tactic(auto)]

mod reading;
mod squeezing;
mod writing;

pub use labels::{Layout, name};
pub use reading::{TextError, TextRead, read};
pub use writing::write;
