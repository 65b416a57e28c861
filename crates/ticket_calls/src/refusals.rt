// Whether a call is refused: the parties are looked for first, then the numbers are tested as those of a file are.
ghost use Rattle.std.specs.Prelude.{◌≡◌};
ghost use Rattle.ticket_calls.specs.Calls.{terms_pass, hours_refusal, terms_refusal};

use crate::Party;
use crate::parties::{has_no_hours, is_in};
use checks::{Field, Refusal, fault_of, must};
use offers::Terms;

pub(crate) fn hours_refusal(ticket: &[u16], party: Party, hours: u16) -> Result<(), Refusal>
    ensures { result ≡ hours_refusal party hours ticket.now }
{
    must(is_in(ticket, party), Refusal::NoParty)?;
    let fits = fault_of(Field::Hours, 0, false, usize::from(hours)).is_ok();
    must(fits, Refusal::AgainstLimits)
}

fn terms_pass(none: bool, terms: Terms) -> bool
    ensures { result ≡ terms_pass none terms }
{
    checks::pair_passes(
        none,
        usize::from(terms.tariff_cap),
        usize::from(terms.tariff_gain),
        usize::from(terms.tariff_pay),
        usize::from(terms.free_cap),
        usize::from(terms.joint_gain),
    )
}

pub(crate) fn pair_refusal(
    ticket: &[u16],
    grower: Party,
    pilot: Party,
    terms: Terms,
) -> Result<(), Refusal>
    ensures { result ≡ terms_refusal grower pilot terms ticket.now }
{
    must(
        is_in(ticket, grower) & is_in(ticket, pilot),
        Refusal::NoParty,
    )?;
    let none = has_no_hours(ticket, grower) | has_no_hours(ticket, pilot);
    must(terms_pass(none, terms), Refusal::AgainstLimits)
}
