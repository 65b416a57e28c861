// The settlements of a ticket within its limits, one after another in the order of their bytes.
ghost use Rattle.std.specs.Prelude.{◌<◌};

use super::numbers::{growers, of_pair, pairs, pilots};

pub fn settlement_length(ticket: &[u8]) -> usize
    ensures { (2 < result) × (result < 16) }
{
    3 + 3 * usize::from(pairs(ticket))
}

// The first: no hours, no pay.
pub fn first_settlement(ticket: &[u8]) -> [u8; 15] {
    let n = growers(ticket);
    let m = pilots(ticket);
    [2, n, m, 0, 0, 0, 0, 0, 0, 0, 0, 0, 0, 0, 0]
}

fn narrow(x: usize) -> u8 {
    (x % 256) as u8
}

// The limit of the number at a place: the tariff cap for tariff hours, the free cap for free-deal hours, c for pay.
pub fn limit(ticket: &[u8], place: usize) -> u8 {
    if place < 3 {
        return 0;
    }
    let pair = narrow(place / 3 - 1);
    match place % 3 {
        0 => of_pair(ticket, pair, 0),
        1 => of_pair(ticket, pair, 3),
        _ => of_pair(ticket, pair, 4),
    }
}

// The next settlement; after the last one, the first again and false. By index: the limit of a number is told by its place.
pub fn next_settlement(settlement: &mut [u8; 15], ticket: &[u8]) -> bool {
    let mut place = settlement_length(ticket);
    while place > 3 {
        place -= 1;
        let x = settlement[place];
        if x < limit(ticket, place) {
            settlement[place] = x + 1;
            return true;
        }
        settlement[place] = 0;
    }
    false
}
