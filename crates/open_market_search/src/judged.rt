// The settlement that is held, judged by the marker and by the plain search.
use super::files::{are_bytes, write_settlement, write_ticket};
use super::tally::{MARKED_SOUND, SOUND, UNSOUND};
use open_market::Market;
use verdicts::Verdict;

// Sound, with every deal looked at.
fn is_marked_sound(ticket: &[u8], settlement: &[u8]) -> bool {
    match marker::mark(ticket, settlement) {
        Verdict::Sound { count, worth: _ } => count == usize::from(plain::deals(ticket)),
        _ => false,
    }
}

fn judged_files(ticket: &[u8], settlement: &[u8], plainly: bool) -> usize {
    if !is_marked_sound(ticket, settlement) {
        return UNSOUND;
    }
    if !plainly {
        return MARKED_SOUND;
    }
    if plain::is_sound(ticket, settlement) {
        SOUND
    } else {
        UNSOUND
    }
}

// Of files at the front of what was lent for them.
fn judged_fronts(
    ticket: &[u8; 54],
    length: usize,
    settlement: &[u8; 30],
    count: usize,
    plainly: bool,
) -> usize {
    judged_files(
        ascii::front(ticket, length),
        ascii::front(settlement, count),
        plainly,
    )
}

// The answer is a place of the tally.
pub(crate) fn judged(ticket: &[u16; 27], market: Market) -> usize {
    let mut ticket_file: [u8; 54] = [0; 54];
    let length = write_ticket(ticket, &mut ticket_file);
    let mut settlement_file: [u8; 30] = [0; 30];
    let count = write_settlement(ticket, market, &mut settlement_file);
    judged_fronts(
        &ticket_file,
        length,
        &settlement_file,
        count,
        are_bytes(ticket),
    )
}
