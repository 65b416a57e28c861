// The places of a ticket: what is wrong with a number at each, and what it leaves in the state.
ghost use Rattle.std.specs.Prelude.{◌≡◌, ◌+◌, ◌<◌, ◌≤◌};
ghost use Rattle.checks.specs.Refusals.{giving};
ghost use Rattle.checks.specs.TicketFaults.{fault_of};
ghost use Rattle.documents.specs.Ticket.{deal_field, after_of, none_at, none_for, ticket_fault, ticket_after};
ghost use Rattle.documents.specs.Bounds.{Known, most_places};

use crate::layout::{passed, with_cap, with_hours, with_parties};
use checks::{Field, Refusal, fault_of, noted, pair_has_none};
use documents::{HEAD, State};

// A number before the pairs: kind, growers, pilots, and everybody's hours.
#[inline(always)]
fn head_check(s: State, x: usize) -> Result<State, Refusal>
    requires { (s.place < 3 + s.growers + s.pilots) × (s.place < most_places) }
    ensures { result ≡ giving (ticket_fault s x) (ticket_after s x) }
{
    let place = s.place;
    match place {
        0 => {
            fault_of(Field::Kind, s.cap, s.none, x)?;
            Ok(passed(s))
        }
        1 => {
            fault_of(Field::Growers, s.cap, s.none, x)?;
            Ok(with_parties(s, x, s.pilots))
        }
        2 => {
            fault_of(Field::Pilots, s.cap, s.none, x)?;
            Ok(with_parties(s, s.growers, x))
        }
        _ => {
            fault_of(Field::Hours, s.cap, s.none, x)?;
            Ok(with_hours(s, noted(s.without, x)))
        }
    }
}

// Whether the grower or the pilot of the pair at a state's place has no hours. Where everybody has some, no pair is looked for.
#[inline(always)]
fn none_at(s: State) -> bool
    requires known { Known s }
    requires pilots_bound { 3 + s.growers + s.pilots ≤ s.place }
    ensures { result ≡ none_at s }
{
    if s.without == 0 {
        return false;
    }
    let pair = (s.place - HEAD - (s.growers + s.pilots)) / 5;
    pair_has_none(s.without, s.growers as u16, s.pilots as u16, pair)
}

// A number of a pair: its tariff cap, its free cap, or an amount.
#[inline(always)]
fn deal_check(k: usize, s: State, x: usize) -> Result<State, Refusal>
    requires known { Known s }
    requires pilots_bound { (3 + s.growers + s.pilots ≤ s.place) × (s.place < most_places) }
    ensures { result ≡ giving (fault_of (deal_field k) s.cap (none_for (deal_field k) s) x) (after_of (deal_field k) s x) }
{
    match k {
        0 => {
            let none = none_at(s);
            fault_of(Field::TariffCap, s.cap, none, x)?;
            Ok(with_cap(s, none, x))
        }
        3 => {
            fault_of(Field::FreeCap, s.cap, s.none, x)?;
            Ok(with_cap(s, s.none, x))
        }
        _ => {
            fault_of(Field::TariffGain, s.cap, s.none, x)?;
            Ok(passed(s))
        }
    }
}

// What is wrong with a number at a state's place, and the state after it. Nearly all numbers stand in pairs, so these are looked at first.
#[inline(always)]
pub(crate) fn ticket_check(s: State, x: usize) -> Result<State, Refusal>
    requires known { Known s }
    requires place_lt_most_places { s.place < most_places }
    ensures { result ≡ giving (ticket_fault s x) (ticket_after s x) }
{
    let place = s.place;
    let pairs = HEAD + s.growers + s.pilots;
    if pairs <= place {
        deal_check((place - pairs) % 5, s, x)
    } else {
        head_check(s, x)
    }
}
