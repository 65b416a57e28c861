// The places of a settlement of a ticket with so many growers and pilots. A pair's numbers have no range.
ghost use Rattle.std.specs.Prelude.{◌≡◌};
ghost use Rattle.checks.specs.SettlementFaults.{place_fault, settlement_fault};

use crate::refusals::{Document, Refusal, must, refusals_of};

// What is wrong with a number at a place.
fn place_fault(growers: usize, pilots: usize, place: usize, x: usize) -> Result<(), Refusal>
    ensures { result ≡ place_fault growers pilots place x }
{
    let refusals = refusals_of(Document::Settlement { growers, pilots });
    match place {
        0 => must(x == 2, refusals.kind),
        1 => must(x == growers, refusals.parties),
        2 => must(x == pilots, refusals.parties),
        _ => Ok(()),
    }
}

// A number that needs too many groups comes only from a list. It is refused as its second byte would be.
pub fn settlement_fault(
    growers: usize,
    pilots: usize,
    place: usize,
    x: usize,
) -> Result<(), Refusal>
    ensures { result ≡ settlement_fault growers pilots place x }
{
    let refusals = refusals_of(Document::Settlement { growers, pilots });
    must(groups::fits(x), refusals.long)?;
    place_fault(growers, pilots, place, x)
}
