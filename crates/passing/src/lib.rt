// Whether a list is a document, whole: a quick test that finds no refusal, with no branch that depends on the numbers of a pair. A list
// that does not pass is walked over number by number (`scanning`), which finds the first refusal.
#![tactic(auto)]

ghost use Rattle.std.specs.Prelude.{◌≡◌, ◌+◌, ◌*◌, ◌<◌, ◌≤◌, length};
ghost use Rattle.passing.specs.Passes.{head_passes, hours_pass, pair_passes_at, row_passes, pairs_pass, ticket_passes, all_fit};
ghost use Rattle.passing.specs.Passes.{settlement_passes, passes_as};

use checks::{Document, Field, fault_of, pair_passes, settlement_fault};
use documents::HEAD;
use groups::fits;

// Whether kind, growers and pilots of a ticket have no fault.
fn head_passes(kind: usize, growers: usize, pilots: usize) -> bool
    ensures { result ≡ head_passes kind growers pilots }
{
    fault_of(Field::Kind, 0, false, kind).is_ok()
        & fault_of(Field::Growers, 0, false, growers).is_ok()
        & fault_of(Field::Pilots, 0, false, pilots).is_ok()
}

// Whether nobody's hours have a fault.
fn hours_pass(list: &[u16], parties: usize) -> bool
    requires { 3 + parties ≤ length list.now }
    ensures { result ≡ hours_pass list.now parties }
{
    let mut pass = true;
    for &hours in &list[HEAD..HEAD + parties] {
        pass = pass & fault_of(Field::Hours, 0, false, usize::from(hours)).is_ok();
    }
    pass
}

// Whether the five numbers from a place on have no fault.
fn pair_at(none: bool, list: &[u16], at: usize) -> bool
    requires { at + 5 ≤ length list.now }
    ensures { result ≡ pair_passes_at none list.now at }
{
    pair_passes(
        none,
        usize::from(list[at]),
        usize::from(list[at + 1]),
        usize::from(list[at + 2]),
        usize::from(list[at + 3]),
        usize::from(list[at + 4]),
    )
}

// Whether no pair of grower i has a fault. His pairs stand from a place on.
fn row_passes(list: &[u16], growers: usize, pilots: usize, i: usize, from: usize) -> bool
    requires { (i < growers) × (3 + growers + pilots ≤ length list.now) × (from + 5 * pilots ≤ length list.now) }
    ensures { result ≡ row_passes list.now growers pilots i from }
{
    let off = list[HEAD + i] == 0;
    let mut pass = true;
    let mut at = from;
    // Joined by `&`: no branch depends on the numbers of a pair, as it would in `all`.
    for j in 0..pilots {
        let none = off | (list[HEAD + growers + j] == 0);
        pass = pass & pair_at(none, list, at);
        at = at + 5;
    }
    pass
}

// Whether no pair has a fault.
fn pairs_pass(list: &[u16], growers: usize, pilots: usize) -> bool
    requires { (growers < 17) × (pilots < 17) × (3 + growers + pilots + 5 * (growers * pilots) ≤ length list.now) }
    ensures { result ≡ pairs_pass list.now growers pilots }
{
    let mut pass = true;
    let mut from = HEAD + growers + pilots;
    // As in a row: joined by `&`, not by `all`.
    for i in 0..growers {
        pass = pass & row_passes(list, growers, pilots, i, from);
        from = from + 5 * pilots;
    }
    pass
}

fn ticket_passes(list: &[u16]) -> bool
    ensures { result ≡ ticket_passes list.now }
{
    if list.len() < HEAD {
        return false;
    }
    let growers = usize::from(list[1]);
    let pilots = usize::from(list[2]);
    if !head_passes(usize::from(list[0]), growers, pilots) {
        return false;
    }
    if list.len() != HEAD + growers + pilots + 5 * numbers::pairs(growers, pilots) {
        return false;
    }
    hours_pass(list, growers + pilots) & pairs_pass(list, growers, pilots)
}

// Whether no number has too many groups.
fn all_fit(list: &[u16]) -> bool
    ensures { result ≡ all_fit list.now }
{
    let mut pass = true;
    // Joined by `&`: no branch depends on the numbers, as it would in `all`.
    for &x in list {
        pass = pass & fits(usize::from(x));
    }
    pass
}

// No settlement of more growers or pilots than a square has room for passes.
fn settlement_passes(growers: usize, pilots: usize, list: &[u16]) -> bool
    ensures { result ≡ settlement_passes growers pilots list.now }
{
    if numbers::SIDE < growers {
        return false;
    }
    if numbers::SIDE < pilots {
        return false;
    }
    if list.len() != HEAD + 3 * numbers::pairs(growers, pilots) {
        return false;
    }
    settlement_fault(growers, pilots, 0, usize::from(list[0])).is_ok()
        & settlement_fault(growers, pilots, 1, usize::from(list[1])).is_ok()
        & settlement_fault(growers, pilots, 2, usize::from(list[2])).is_ok()
        & all_fit(list)
}

// Whether a list passes. What passes is a document, whole (`passes_whole`).
pub fn passes(document: Document, list: &[u16]) -> bool
    ensures { result ≡ passes_as document list.now }
{
    match document {
        Document::Ticket => ticket_passes(list),
        Document::Settlement { growers, pilots } => settlement_passes(growers, pilots, list),
    }
}
