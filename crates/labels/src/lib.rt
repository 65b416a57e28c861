// What the numbers of a ticket or a settlement are called in a text: at each place, the line it stands on and its name there.
#![tactic(auto)]

mod places;
mod words;

pub use places::{Layout, Line, Spot};
pub use words::{begins_line, label, name};
