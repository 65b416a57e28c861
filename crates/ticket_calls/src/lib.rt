// Calls on the list of a ticket's numbers: a party's hours, or the five numbers of a pair, are set, unless the call is refused. Both answer
// on every list.
#![tactic(auto)]

mod changes;
mod parties;
mod refusals;

ghost use Rattle.std.specs.Prelude.{◌≡◌};
ghost use Rattle.ticket_calls.specs.Calls.{SetHours, SetPair, refusal_of, after};

use changes::{change_hours, change_pair};
use checks::Refusal;
pub use offers::Terms;
use refusals::{hours_refusal, pair_refusal};

// A grower or a pilot, by his number.
#[derive(Clone, Copy, Debug, PartialEq, Eq)]
pub enum Party {
    Grower { number: u16 },
    Pilot { number: u16 },
}

// Sets a party's hours. Hours of 0 also set the numbers of all its pairs to 0.
pub fn set_hours(ticket: &mut [u16; 1315], party: Party, hours: u16) -> Result<(), Refusal>
    ensures value { result ≡ refusal_of (SetHours party hours) ticket.old }
    ensures ticket_after { ticket.new ≡ after (SetHours party hours) ticket.old }
{
    hours_refusal(&*ticket, party, hours)?;
    change_hours(ticket, party, hours);
    Ok(())
}

// Sets the five numbers of a grower and a pilot.
pub fn set_pair(
    ticket: &mut [u16; 1315],
    grower: u16,
    pilot: u16,
    terms: Terms,
) -> Result<(), Refusal>
    ensures value { result ≡ refusal_of (SetPair grower pilot terms) ticket.old }
    ensures ticket_after { ticket.new ≡ after (SetPair grower pilot terms) ticket.old }
{
    pair_refusal(
        &*ticket,
        Party::Grower { number: grower },
        Party::Pilot { number: pilot },
        terms,
    )?;
    change_pair(ticket, grower, pilot, terms);
    Ok(())
}
