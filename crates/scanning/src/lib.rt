// The walk over a whole document, of bytes or of a list: it finds the first refusal in file order, and writes nothing.
#![tactic(auto)]

ghost use Rattle.std.specs.Prelude.{◌≡◌, ◌+◌, ◌<◌, ◌≤◌};
ghost use Rattle.documents.specs.Walk.{form};
ghost use Rattle.documents.specs.Layout.{form_of};
ghost use Rattle.documents.specs.Bounds.{Known, most_places};
ghost use Rattle.scanning.specs.Runs.{begun, stepped, gone_on, scanned};

mod layout; // layout.rt: the two documents behind one state: the fault of a number, the state after it, how many follow
mod settlement; // settlement.rt: the places of a settlement
mod source; // source.rt: what a document is read from: bytes or a list
mod ticket; // ticket.rt: the places of a ticket

use checks::{Document, Refusal, refusals_of};
use documents::{HEAD, State};
use groups::Got;
use layout::{body_of, check, start};
pub use source::Source;

// How far a document is read: the place after the last number, and the state.
#[derive(Clone, Copy)]
struct Reached {
    next: usize,
    state: State,
}

// Nothing is read.
fn begun() -> Reached
    ensures { result ≡ begun }
{
    let state = start();
    Reached { next: 0, state }
}

// What was read at a state's place is refused, or taken.
#[inline(always)]
fn step(document: Document, s: State, got: Got) -> Result<Reached, Refusal>
    requires known { Known s }
    requires place_lt_most_places { s.place < most_places }
    ensures { result ≡ stepped document s got }
{
    let refusals = refusals_of(document);
    match got {
        Got::Number { value, next } => {
            let state = check(document, s, value)?;
            Ok(Reached { next, state })
        }
        Got::Ends => Err(refusals.ends),
        Got::TooLong => Err(refusals.long),
        Got::Padded => Err(refusals.padded),
    }
}

// `count` numbers of a source, unless one is refused.
fn walk<S: Source>(
    document: Document,
    source: S,
    count: usize,
    from: Reached,
) -> Result<Reached, Refusal>
    requires known { Known from.state }
    requires count_bound { from.state.place + count ≤ most_places }
    ensures { result ≡ gone_on document S.read (S.held source) count from }
{
    let mut here = from;
    // k counts: where the next number stands is told by the last one.
    for k in 0..count {
        let got = source.number_at(here.next);
        here = step(document, here.state, got)?;
    }
    Ok(here)
}

// Reads and checks a whole document: the first three numbers, those that they ask for, and nothing after them. Answers how many there are.
pub fn scan<S: Source>(document: Document, source: S) -> Result<usize, Refusal>
    ensures { result ≡ scanned (form (form_of document) S.read (S.held source)) }
{
    let head = walk(document, source, HEAD, begun())?;
    let count = body_of(document, head.state);
    let end = walk(document, source, count, head)?;
    if end.next < source.places() {
        return Err(refusals_of(document).left);
    }
    Ok(HEAD + count)
}
