// The tickets of a grid, one after another in the order of their bytes: the last number turns fastest.
ghost use Rattle.std.specs.Prelude.{◌<◌};

use super::numbers::{pairs, parties, value};

// The most that the numbers of a grid's tickets are.
#[derive(Clone, Copy, Debug, PartialEq, Eq)]
pub struct Most {
    pub hours: u8,
    pub tariff_cap: u8,
    pub free_cap: u8,
    pub amount: u8,
}

// Where the numbers of the pairs begin.
pub fn pairs_begin(ticket: &[u8]) -> usize
    ensures { (2 < result) × (result < 8) }
{
    3 + usize::from(parties(ticket))
}

pub fn ticket_length(ticket: &[u8]) -> usize
    ensures { result < 28 }
{
    pairs_begin(ticket) + 5 * usize::from(pairs(ticket))
}

// The first ticket of a grid: all hours as given, all caps and amounts 0.
pub fn first_ticket(growers: u8, pilots: u8, hours: u8) -> [u8; 27] {
    let mut ticket: [u8; 27] = [
        1, growers, pilots, 0, 0, 0, 0, 0, 0, 0, 0, 0, 0, 0, 0, 0, 0, 0, 0, 0, 0, 0, 0, 0, 0, 0, 0,
    ];
    let pairs = pairs_begin(&ticket);
    ticket[3..pairs].fill(hours);
    ticket
}

// An amount under the cap 0 is 0.
fn most_amount(cap: u8, most: Most) -> u8 {
    if cap == 0 { 0 } else { most.amount }
}

// The most at a place. Of a pair's five numbers the first and the fourth are caps, each before the amounts of its deal.
fn most_at(ticket: &[u8], place: usize, most: Most) -> u8 {
    let begin = pairs_begin(ticket);
    if place < begin {
        return most.hours;
    }
    match (place - begin) % 5 {
        0 => most.tariff_cap,
        3 => most.free_cap,
        2 => most_amount(value(ticket, place - 2), most),
        _ => most_amount(value(ticket, place - 1), most),
    }
}

// The next ticket, by the numbers from a place on; after the last one, these are 0 and the answer is false. The amounts of a cap
// that turns are 0. By index: the most of an amount is told by the cap before it.
pub fn next_ticket(ticket: &mut [u8; 27], from: usize, most: Most) -> bool {
    let mut place = ticket_length(&*ticket);
    while place > from {
        place -= 1;
        let x = ticket[place];
        if x < most_at(&*ticket, place, most) {
            ticket[place] = x + 1;
            return true;
        }
        ticket[place] = 0;
    }
    false
}
