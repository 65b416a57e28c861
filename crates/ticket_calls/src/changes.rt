// What an accepted call does to a ticket's numbers.
ghost use Rattle.std.specs.Prelude.{true, ◌≡◌, ◌+◌, ◌<◌};
ghost use Rattle.std.proofs.lemmas.List.Edits.{sets};
ghost use Rattle.tables.specs.View.{growers_of, pilots_of};
ghost use Rattle.ticket_calls.specs.declared.Party.TheVariants.{Grower};
ghost use Rattle.ticket_calls.specs.Calls.{SetHours, SetPair, partners, is_in, numbers_of, no_terms, with_terms, without_deals, changed};

use crate::Party;
use crate::parties::{hours_place, pair_place, partners};
use offers::Terms;

fn no_terms() -> Terms
    ensures { result ≡ no_terms }
{
    Terms {
        tariff_cap: 0,
        tariff_gain: 0,
        tariff_pay: 0,
        free_cap: 0,
        joint_gain: 0,
    }
}

// The five numbers of a pair from a place on.
fn store_terms(ticket: &mut [u16; 1315], place: usize, terms: Terms)
    requires { place + 4 < 1315 }
    ensures { ticket.new ≡ sets ticket.old place (numbers_of terms) }
{
    ticket[place] = terms.tariff_cap;
    ticket[place + 1] = terms.tariff_gain;
    ticket[place + 2] = terms.tariff_pay;
    ticket[place + 3] = terms.free_cap;
    ticket[place + 4] = terms.joint_gain;
}

// Those of a party's pair with a partner.
fn change_terms(ticket: &mut [u16; 1315], party: Party, partner: u16, terms: Terms)
    requires ticket_value { is_in party ticket.old ≡ true }
    requires partner_bound { partner < partners party (growers_of ticket.old) (pilots_of ticket.old) }
    ensures { ticket.new ≡ with_terms party partner terms ticket.old }
{
    let place = pair_place(&*ticket, party, partner);
    store_terms(ticket, place, terms);
}

// Zeros in all pairs of a party.
fn clear(ticket: &mut [u16; 1315], party: Party)
    requires { is_in party ticket.old ≡ true }
    ensures { ticket.new ≡ without_deals party ticket.old }
{
    let count = partners(&*ticket, party);
    // by number: partner k, whose numbers are written where the list is read; `as`: at most 16
    for k in 0..count {
        change_terms(&mut *ticket, party, k as u16, no_terms());
    }
}

// A party's hours are set. Whose hours are 0 has no deals left.
pub(crate) fn change_hours(ticket: &mut [u16; 1315], party: Party, hours: u16)
    requires { is_in party ticket.old ≡ true }
    ensures { ticket.new ≡ changed (SetHours party hours) ticket.old }
{
    let place = hours_place(&*ticket, party);
    ticket[place] = hours;
    if hours == 0 {
        clear(ticket, party);
    }
}

// The five numbers of a pair are set.
pub(crate) fn change_pair(ticket: &mut [u16; 1315], grower: u16, pilot: u16, terms: Terms)
    requires ticket_value { is_in (Grower grower) ticket.old ≡ true }
    requires pilot_bound { pilot < pilots_of ticket.old }
    ensures { ticket.new ≡ changed (SetPair grower pilot terms) ticket.old }
{
    change_terms(ticket, Party::Grower { number: grower }, pilot, terms);
}
