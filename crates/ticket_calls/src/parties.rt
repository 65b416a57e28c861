// A party in a ticket's list: whether it is there, its hours, and its pairs.
ghost use Rattle.std.specs.Prelude.{◌≡◌, eqb};
ghost use Rattle.tables.specs.View.{growers_of, pilots_of};
ghost use Rattle.ticket_calls.specs.Calls.{is_one, hours_place, partners, pair_place, is_in, hours_of};

use crate::Party;
use tables::{Quantity, Side};

fn is_one(party: Party, growers: usize, pilots: usize) -> bool
    ensures { result ≡ is_one party growers pilots }
{
    match party {
        Party::Grower { number } => usize::from(number) < growers,
        Party::Pilot { number } => usize::from(number) < pilots,
    }
}

pub(crate) fn is_in(ticket: &[u16], party: Party) -> bool
    ensures { result ≡ is_in party ticket.now }
{
    let growers = tables::growers(ticket);
    let pilots = tables::pilots(ticket);
    if numbers::SIDE < growers {
        return false;
    }
    if numbers::SIDE < pilots {
        return false;
    }
    is_one(party, growers, pilots)
}

pub(crate) fn hours_place(ticket: &[u16], party: Party) -> usize
    ensures { result ≡ hours_place party (growers_of ticket.now) }
{
    match party {
        Party::Grower { number } => tables::hours_place(ticket, Side::Growers, number),
        Party::Pilot { number } => tables::hours_place(ticket, Side::Pilots, number),
    }
}

pub(crate) fn has_no_hours(ticket: &[u16], party: Party) -> bool
    ensures { result ≡ eqb (hours_of party ticket.now) 0 }
{
    numbers::entry(ticket, hours_place(ticket, party)) == 0
}

pub(crate) fn partners(ticket: &[u16], party: Party) -> usize
    ensures { result ≡ partners party (growers_of ticket.now) (pilots_of ticket.now) }
{
    match party {
        Party::Grower { number: _ } => tables::pilots(ticket),
        Party::Pilot { number: _ } => tables::growers(ticket),
    }
}

// Where the numbers of its pair with a partner begin.
pub(crate) fn pair_place(ticket: &[u16], party: Party, partner: u16) -> usize
    ensures { result ≡ pair_place party (growers_of ticket.now) (pilots_of ticket.now) partner }
{
    match party {
        Party::Grower { number } => tables::place(ticket, Quantity::TariffCap, number, partner),
        Party::Pilot { number } => tables::place(ticket, Quantity::TariffCap, partner, number),
    }
}
