// The spares of a party, one by one. A source of spares is one of the deals, or the number after them: the party's own hours in
// no deal.
use super::numbers::{deals, earns, grower_of, hours, own_hours, pilot_of};

// A party's hours in a deal, 0 if it is none of his.
fn hours_in(ticket: &[u8], settlement: &[u8], party: u8, deal: u8) -> u8 {
    if grower_of(ticket, deal) == party || pilot_of(ticket, deal) == party {
        hours(settlement, deal)
    } else {
        0
    }
}

// A party's hours over all his deals. By a loop: it was tried with `sum`, and that the sum fits did not prove.
pub(crate) fn used(ticket: &[u8], settlement: &[u8], party: u8) -> usize {
    let mut sum: usize = 0;
    for deal in 0..deals(ticket) {
        sum += usize::from(hours_in(ticket, settlement, party, deal));
    }
    sum
}

// Whether one of a party's own hours is in no deal.
pub(crate) fn has_free_hour(ticket: &[u8], settlement: &[u8], party: u8) -> bool {
    used(ticket, settlement, party) < usize::from(own_hours(ticket, party))
}

// Whether a party has an hour there.
pub(crate) fn has_hour(ticket: &[u8], settlement: &[u8], party: u8, source: u8) -> bool {
    if source == deals(ticket) {
        return has_free_hour(ticket, settlement, party);
    }
    hours_in(ticket, settlement, party, source) > 0
}

// What such an hour is worth: what it earns, and a free hour nothing.
pub(crate) fn worth(ticket: &[u8], settlement: &[u8], party: u8, source: u8) -> u8 {
    if source == deals(ticket) {
        return 0;
    }
    earns(ticket, settlement, party, source)
}
