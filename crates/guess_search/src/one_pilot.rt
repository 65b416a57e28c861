// A market of two growers and one pilot, with rows and squares of two. The guess knows a pilot by his hours, and may have the absent one
// fly. Its test looks at the market alone; where it fails, the method settles.
ghost use Rattle.std.specs.Prelude.{◌<◌};

use super::files::numbers;
use super::judged::{is_sound, judged};
use super::squares::{guess, settled};
use super::tally::{NOT_SETTLED, SETTLED, WITH_ABSENT_PILOT};
use plain::{count, first_ticket};

// Where the number at a place of the ticket without its second pilot stands in the whole one: neither his hours nor his pairs are left.
fn source(place: usize) -> usize
    requires { place < 16 }
    ensures { result < 27 }
{
    if place < 6 {
        return place;
    }
    if place < 11 { place + 1 } else { place + 6 }
}

fn without_second_pilot(whole: &[u8; 27]) -> [u8; 27] {
    let mut file = first_ticket(2, 1, 0);
    for place in 3..16usize {
        let from = source(place);
        file[place] = whole[from];
    }
    file
}

fn judge(ticket: &[u8], list: &[u16], tally: &mut [usize; 17]) {
    let mut lent = plain::first_settlement(ticket);
    let certified = guess(ticket, list, &mut lent);
    count(
        &mut *tally,
        WITH_ABSENT_PILOT + judged(ticket, &lent, certified),
    );
    let settlement = settled(ticket, list);
    let place = if is_sound(ticket, &settlement) {
        SETTLED
    } else {
        NOT_SETTLED
    };
    count(tally, place);
}

pub(crate) fn of_ticket(whole: &[u8; 27], tally: &mut [usize; 17]) {
    let file = without_second_pilot(whole);
    let ticket = ascii::front(&file, plain::ticket_length(&file));
    judge(ticket, &numbers(whole), tally);
}
