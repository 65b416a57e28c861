// The commands of the command line: what the arguments ask for, what each command does, and the exit status. No contract can say what the
// arguments are, so the functions here are proved safe, and tried by running the program `exchange`.
#![tactic(auto)]

mod arguments; // arguments.rt: the program's arguments
mod asked; // asked.rt: commands and options
mod manual; // manual.rt: what each command does
mod nearest; // nearest.rt: the command that a word may have meant
mod status; // status.rt: the exit status

pub use arguments::argument;
pub use asked::{Asked, Command, asked_for, command_of, fits, operand};
pub use manual::{help, help_for, version};
pub use nearest::no_command;
pub use status::Status;
