// A market held open at a desk: calls come in by standard input, a line each, and each line is answered on standard output before the
// next is read. `docs/FORMAT.md` has the calls and the answers. Which call a line is rests on `desk_calls`, and what it does on
// `open_market`. What is read and written no contract can say, so the functions here are proved safe and ending, and held to the stored
// run of the program `desk_run`.
#![tactic(auto)]

mod answers;
mod dialogue;
mod lines;
mod saving;

use checks::Refusal;
use dialogue::talk;
use files::Told;

// Why a desk ended before its input did: the ticket was refused, or reading or writing failed.
#[derive(Clone, Copy, Debug, PartialEq, Eq)]
pub enum Closed {
    Refused { why: Refusal },
    Failed,
}

impl From<Refusal> for Closed {
    fn from(why: Refusal) -> Closed {
        Closed::Refused { why }
    }
}

impl From<Told> for Closed {
    fn from(_told: Told) -> Closed {
        Closed::Failed
    }
}

// Opens the market of a ticket's file, and answers calls until the input ends.
pub fn serve(rt: &HostRuntime, ticket: &[u8]) -> Result<(), Closed> {
    let market = open_market::open(ticket)?;
    talk(rt, market)?;
    Ok(())
}
