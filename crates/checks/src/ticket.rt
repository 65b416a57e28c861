// The fields of a ticket, and the range of each.
ghost use Rattle.std.specs.Prelude.{◌≡◌};
ghost use Rattle.checks.specs.TicketFaults.{party_fault, zero_cap_fault, amount_fault, no_hours_fault, cap_fault, fault_of, pair_passes};

use crate::refusals::{Document, Refusal, must, refusals_of};

// What stands at a place of a ticket.
#[derive(Clone, Copy)]
pub enum Field {
    Kind,
    Growers,
    Pilots,
    Hours,
    TariffCap,
    TariffGain,
    TariffPay,
    FreeCap,
    FreeGain,
}

// Growers and pilots are 1 to 16.
fn party_fault(why: Refusal, x: usize) -> Result<(), Refusal>
    ensures { result ≡ party_fault why x }
{
    if 1 <= x { must(x <= 16, why) } else { Err(why) }
}

// In a deal of cap 0 an amount is 0.
fn zero_cap_fault(cap: usize, x: usize) -> Result<(), Refusal>
    ensures { result ≡ zero_cap_fault cap x }
{
    if cap == 0 {
        must(x == 0, Refusal::AmountWithoutCap)
    } else {
        Ok(())
    }
}

// The limit is tested before the cap.
fn amount_fault(cap: usize, x: usize) -> Result<(), Refusal>
    ensures { result ≡ amount_fault cap x }
{
    must(x <= 500, Refusal::AboveLimit)?;
    zero_cap_fault(cap, x)
}

// In a deal of somebody without hours a cap is 0.
fn no_hours_fault(none: bool, x: usize) -> Result<(), Refusal>
    ensures { result ≡ no_hours_fault none x }
{
    if none {
        must(x == 0, Refusal::CapWithoutHours)
    } else {
        Ok(())
    }
}

// The limit is tested before the hours.
fn cap_fault(none: bool, x: usize) -> Result<(), Refusal>
    ensures { result ≡ cap_fault none x }
{
    must(x <= 60, Refusal::AboveLimit)?;
    no_hours_fault(none, x)
}

// What is wrong with a number in a field. `cap` is the last cap, and `none` says whether somebody of the pair has no
// hours.
pub fn fault_of(field: Field, cap: usize, none: bool, x: usize) -> Result<(), Refusal>
    ensures { result ≡ fault_of field cap none x }
{
    let refusals = refusals_of(Document::Ticket);
    match field {
        Field::Kind => must(x == 1, refusals.kind),
        Field::Growers => party_fault(refusals.parties, x),
        Field::Pilots => party_fault(refusals.parties, x),
        Field::Hours => must(x <= 60, Refusal::HoursAboveLimit),
        Field::TariffCap => cap_fault(none, x),
        Field::TariffGain => amount_fault(cap, x),
        Field::TariffPay => amount_fault(cap, x),
        Field::FreeCap => cap_fault(none, x),
        Field::FreeGain => amount_fault(cap, x),
    }
}

// Whether the five numbers of a pair, in their order, have no fault. No branch depends on them: `&` looks at both sides.
pub fn pair_passes(
    none: bool,
    cap: usize,
    gain: usize,
    pay: usize,
    free: usize,
    joint: usize,
) -> bool
    ensures { result ≡ pair_passes none cap gain pay free joint }
{
    cap_fault(none, cap).is_ok()
        & amount_fault(cap, gain).is_ok()
        & amount_fault(cap, pay).is_ok()
        & cap_fault(none, free).is_ok()
        & amount_fault(free, joint).is_ok()
}
