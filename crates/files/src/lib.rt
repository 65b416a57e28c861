// Files by name, room for them, and the texts that a program prints. No contract can say what is read from the system or written to
// it, so the functions here are proved safe, and tried by running the programs above them.
#![tactic(auto)]

mod links;
mod messages;
mod names;
mod printed;
mod reading;
mod reasons;
mod room;
mod writing;

pub use messages::{About, fail, message};
pub use printed::{Text, Told, print};
pub use reading::{fill, is_dash, read};
pub use reasons::tell;
pub use room::{settlement_bytes, ticket_bytes};
pub use writing::{write, write_named};
