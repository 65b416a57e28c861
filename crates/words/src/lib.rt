// What a refusal or a verdict means, in words; the hours that two parties would give up; and every fault of a settlement. What is written
// no contract can say: the functions here are proved safe, and held to the stored output of the program above them.
#![tactic(auto)]

mod faults;
mod meaning;
mod settlements;
mod spares;

pub use faults::{MOST_FAULTS, faults_of};
pub use meaning::{Explained, Finding, Reason, is_of_ticket};
pub use settlements::Settled;
pub use spares::flown;
