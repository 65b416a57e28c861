// The places of a settlement: kind, growers and pilots, and then three numbers of each pair, which have no range.
ghost use Rattle.std.specs.Prelude.{◌≡◌, ◌<◌};
ghost use Rattle.checks.specs.Refusals.{giving};
ghost use Rattle.checks.specs.SettlementFaults.{settlement_fault};
ghost use Rattle.documents.specs.Settlement.{settlement_after};
ghost use Rattle.documents.specs.Bounds.{most_places};

use crate::layout::{passed, with_parties};
use checks::{Refusal, settlement_fault};
use documents::State;

// The state after a number: its growers and pilots are kept.
#[inline(always)]
fn settlement_after(s: State, x: usize) -> State
    requires { s.place < most_places }
    ensures { result ≡ settlement_after s x }
{
    let place = s.place;
    match place {
        0 => passed(s),
        1 => with_parties(s, x, s.pilots),
        2 => with_parties(s, s.growers, x),
        _ => passed(s),
    }
}

// What is wrong with a number at a state's place, and the state after it.
#[inline(always)]
pub(crate) fn settlement_check(
    growers: usize,
    pilots: usize,
    s: State,
    x: usize,
) -> Result<State, Refusal>
    requires { s.place < most_places }
    ensures { result ≡ giving (settlement_fault growers pilots s.place x) (settlement_after s x) }
{
    settlement_fault(growers, pilots, s.place, x)?;
    Ok(settlement_after(s, x))
}
