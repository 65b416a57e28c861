// Settlements beyond their ticket's limits.
use super::compare::judge;
use plain::{first_settlement, limit, settlement_length};

// All numbers at their limits, but one above them at the places from `from` to before `end`. By index: a limit is told by its place.
fn settlement(ticket: &[u8], from: usize, end: usize) -> [u8; 15] {
    let mut all = first_settlement(ticket);
    for place in 3..settlement_length(ticket) {
        let most = limit(ticket, place);
        all[place] = if from <= place && place < end {
            most.saturating_add(1).min(127)
        } else {
            most
        };
    }
    all
}

// Each number one above its limit, alone and with all that follow it.
pub(crate) fn limits(ticket: &[u8], greatest: Option<usize>, tally: &mut [usize; 17]) {
    let length = settlement_length(ticket);
    for place in 3..length {
        let alone = settlement(ticket, place, place + 1);
        judge(ticket, &alone, greatest, &mut *tally);
        let with_later = settlement(ticket, place, length);
        judge(ticket, &with_later, greatest, &mut *tally);
    }
}
