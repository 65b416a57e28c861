// A market opened from a ticket, or refused.
use super::calls::Which;
use super::held::{Held, compare_market};
use super::judged::judged;
use super::lists::every;
use super::tally::{OTHER_ANSWER, REFUSED, TICKETS};
use plain::count;

// A small ticket's bytes are its numbers.
fn numbers_of(file: &[u8; 27]) -> [u16; 27] {
    let mut ticket: [u16; 27] = [0; 27];
    for (number, &b) in ticket.iter_mut().zip(file) {
        *number = u16::from(b);
    }
    ticket
}

// Opens a market and makes every list of up to so many calls.
pub(crate) fn of_ticket(file: &[u8; 27], which: Which, longest: usize, tally: &mut [usize; 17]) {
    let front = ascii::front(file, plain::ticket_length(file));
    count(&mut *tally, TICKETS);
    let opened = open_market::open(front);
    if plain::is_refused(front) {
        count(&mut *tally, REFUSED);
    }
    match opened {
        Ok(market) => {
            if plain::is_refused(front) {
                count(&mut *tally, OTHER_ANSWER);
                return;
            }
            let ticket = numbers_of(file);
            compare_market(market, &ticket, &mut *tally);
            count(&mut *tally, judged(&ticket, market));
            let held = Held {
                market,
                ticket,
                refused: None,
            };
            every(held, which, longest, tally);
        }
        Err(why) => {
            if !plain::is_refused(front) || u8::from(why) != plain::WITHOUT_HOURS {
                count(tally, OTHER_ANSWER);
            }
        }
    }
}
