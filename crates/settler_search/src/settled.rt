// A ticket settled, and what the marker and the plain search say of it; or refused, by the settler and by the plain check.
use super::tally::{MARKER_ALONE, OTHERWISE, PLAIN_ALONE, REFUSED, SOUND, UNSOUND};
use reader::Refusal;
use verdicts::Verdict;

// Room for 3 + 4nm bytes with two growers and two pilots.
pub(crate) fn no_bytes() -> [u8; 19] {
    [0; 19]
}

// Sound, with every deal looked at.
fn is_marked_sound(ticket: &[u8], settlement: &[u8]) -> bool {
    match marker::mark(ticket, settlement) {
        Verdict::Sound { count, worth: _ } => count == usize::from(plain::deals(ticket)),
        _ => false,
    }
}

fn judged(ticket: &[u8], settlement: &[u8]) -> usize {
    let plainly = plain::is_sound(ticket, settlement);
    if is_marked_sound(ticket, settlement) {
        if plainly { SOUND } else { MARKER_ALONE }
    } else {
        if plainly { PLAIN_ALONE } else { UNSOUND }
    }
}

fn refused(ticket: &[u8], why: Refusal) -> usize {
    if plain::is_refused(ticket) && u8::from(why) == plain::WITHOUT_HOURS {
        REFUSED
    } else {
        OTHERWISE
    }
}

// The plain check refuses no ticket that is settled.
fn passed(ticket: &[u8], settlement: &[u8]) -> usize {
    if plain::is_refused(ticket) {
        return OTHERWISE;
    }
    judged(ticket, settlement)
}

// Settles a ticket into the lent bytes. The answer is a place of the tally.
pub(crate) fn of_ticket(ticket: &[u8], lent: &mut [u8; 19]) -> usize {
    match settler::settle(ticket, &mut *lent) {
        Err(why) => refused(ticket, why),
        Ok(count) => passed(ticket, ascii::front(lent, count)),
    }
}
