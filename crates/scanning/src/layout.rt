// The two documents behind one state: what is wrong with a number at its place, the state after it, and how many numbers follow.
ghost use Rattle.std.specs.Prelude.{◌≡◌, ◌+◌, ◌*◌, ◌<◌, ◌≤◌};
ghost use Rattle.checks.specs.Refusals.{giving};
ghost use Rattle.documents.specs.State.{start, passed, with_parties, with_hours, with_cap};
ghost use Rattle.documents.specs.Layout.{fault_in, after_in, body_in};
ghost use Rattle.documents.specs.Bounds.{Known, most_places, most_pairs};

use crate::settlement::settlement_check;
use crate::ticket::ticket_check;
use checks::{Document, Refusal};
use documents::State;

// The state before the first number.
pub(crate) fn start() -> State
    ensures { result ≡ start }
{
    State {
        place: 0,
        growers: 0,
        pilots: 0,
        without: 0,
        none: false,
        cap: 0,
    }
}

// The next place, with all that is known.
#[inline(always)]
pub(crate) fn passed(s: State) -> State
    requires { s.place < most_places }
    ensures { result ≡ passed s }
{
    State {
        place: s.place + 1,
        growers: s.growers,
        pilots: s.pilots,
        without: s.without,
        none: s.none,
        cap: s.cap,
    }
}

// The same, with growers and pilots.
#[inline(always)]
pub(crate) fn with_parties(s: State, growers: usize, pilots: usize) -> State
    requires { s.place < most_places }
    ensures { result ≡ with_parties s growers pilots }
{
    State {
        place: s.place + 1,
        growers,
        pilots,
        without: s.without,
        none: s.none,
        cap: s.cap,
    }
}

// The same, with who has no hours.
#[inline(always)]
pub(crate) fn with_hours(s: State, without: u32) -> State
    requires { s.place < most_places }
    ensures { result ≡ with_hours s without }
{
    State {
        place: s.place + 1,
        growers: s.growers,
        pilots: s.pilots,
        without,
        none: s.none,
        cap: s.cap,
    }
}

// The same, with a cap of a pair, and whether somebody of it has no hours.
#[inline(always)]
pub(crate) fn with_cap(s: State, none: bool, cap: usize) -> State
    requires { s.place < most_places }
    ensures { result ≡ with_cap s none cap }
{
    State {
        place: s.place + 1,
        growers: s.growers,
        pilots: s.pilots,
        without: s.without,
        none,
        cap,
    }
}

// What is wrong with a number at a state's place, and the state after it.
#[inline(always)]
pub(crate) fn check(document: Document, s: State, x: usize) -> Result<State, Refusal>
    requires known { Known s }
    requires place_lt_most_places { s.place < most_places }
    ensures { result ≡ giving (fault_in document s x) (after_in document s x) }
{
    match document {
        Document::Ticket => ticket_check(s, x),
        Document::Settlement { growers, pilots } => settlement_check(growers, pilots, s, x),
    }
}

// How many pairs of a grower and a pilot there are.
fn pairs(s: State) -> usize
    requires { Known s }
    ensures { (result ≡ s.growers * s.pilots) × (result ≤ most_pairs) }
{
    s.growers * s.pilots
}

// The numbers that follow the first three.
pub(crate) fn body_of(document: Document, s: State) -> usize
    requires { Known s }
    ensures { (result ≡ body_in document s) × (result + 3 ≤ most_places) }
{
    let pairs = pairs(s);
    match document {
        Document::Ticket => s.growers + s.pilots + 5 * pairs,
        Document::Settlement {
            growers: _,
            pilots: _,
        } => 3 * pairs,
    }
}
