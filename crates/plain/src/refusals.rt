// Which tickets of a grid are refused. Their numbers are within all limits and no deal of cap 0 has an amount, so that one ground is left:
// a cap above 0 where the grower or the pilot has no hours.
use super::numbers::{cap, deals, grower_of, own_hours, pilot_of};

// The number on paper of that refusal.
pub const WITHOUT_HOURS: u8 = 18;

fn is_without_hours(ticket: &[u8], party: u8) -> bool {
    own_hours(ticket, party) == 0
}

fn is_refused_at(ticket: &[u8], deal: u8) -> bool {
    let grower = is_without_hours(ticket, grower_of(ticket, deal));
    let pilot = is_without_hours(ticket, pilot_of(ticket, deal));
    cap(ticket, deal) > 0 && (grower || pilot)
}

pub fn is_refused(ticket: &[u8]) -> bool {
    (0..deals(ticket)).any(|deal| is_refused_at(ticket, deal))
}
