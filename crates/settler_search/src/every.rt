// Every settlement within a ticket's limits, judged by the plain search.
use super::tally::{OTHER, OURS, WRONG};
use plain::count;

// Both settlements are 0 past their end.
fn judged(ticket: &[u8], settlement: &[u8; 15], ours: &[u8; 19]) -> usize {
    if plain::is_sound(
        ticket,
        ascii::front(settlement, plain::settlement_length(ticket)),
    ) {
        if ours.starts_with(settlement) {
            OURS
        } else {
            OTHER
        }
    } else {
        WRONG
    }
}

// There are fewer than a million.
pub(crate) fn of_ticket(ticket: &[u8], ours: &[u8; 19], tally: &mut [usize; 17]) {
    let mut settlement = plain::first_settlement(ticket);
    for _ in 0..1000000usize {
        count(&mut *tally, judged(ticket, &settlement, ours));
        if !plain::next_settlement(&mut settlement, ticket) {
            return;
        }
    }
}
