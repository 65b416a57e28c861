// The calls that are made, numbered: hours of growers, hours of pilots, two that are no calls, and terms of pairs. Parties are 0 to 2, of
// which those up to one past the last are tried.
use super::paper::{GROWER, PAIR, PILOT, growers, pilots};
use super::terms;

// Which calls are made.
#[derive(Clone, Copy)]
pub(crate) enum Which {
    // Few enough for lists of up to three.
    Chosen,
    // All hours and terms around the limits, one call by itself.
    AtLimits,
}

// How many choices there are of hours, and where the numbers of the other calls begin.
const HOURS: usize = 6;

const OF_PILOTS: usize = 18;

const NO_CALLS: usize = 36;

const OF_PAIRS: usize = 38;

pub(crate) fn end(which: Which) -> usize {
    match which {
        Which::Chosen => OF_PAIRS + 9 * terms::CHOSEN,
        Which::AtLimits => OF_PAIRS + 9 * terms::AT_LIMITS,
    }
}

fn narrow(x: usize) -> u16 {
    (x % 65536) as u16
}

fn hours(k: usize) -> u16 {
    match k % HOURS {
        0 => 0,
        1 => 1,
        2 => 2,
        3 => 61,
        4 => 60,
        _ => 65535,
    }
}

// What stands after the hours is not looked at.
fn hours_call(kind: u16, k: usize) -> [u16; 8] {
    [kind, narrow(k / HOURS), hours(k), 1, 500, 61, 0, 3]
}

fn pair_call(k: usize, terms: [u16; 5]) -> [u16; 8] {
    let grower = narrow(k % 9 / 3);
    let pilot = narrow(k % 3);
    [
        PAIR, grower, pilot, terms[0], terms[1], terms[2], terms[3], terms[4],
    ]
}

fn terms_of(which: Which, k: usize) -> [u16; 5] {
    match which {
        Which::Chosen => terms::chosen(k),
        Which::AtLimits => terms::at_limits(k),
    }
}

pub(crate) fn call(which: Which, k: usize) -> [u16; 8] {
    if k < OF_PILOTS {
        return hours_call(GROWER, k);
    }
    if k < NO_CALLS {
        return hours_call(PILOT, k - OF_PILOTS);
    }
    if k < OF_PAIRS {
        return if k == NO_CALLS {
            [0, 0, 0, 0, 0, 0, 0, 0]
        } else {
            [4, 0, 0, 1, 1, 1, 1, 1]
        };
    }
    let pair = k - OF_PAIRS;
    pair_call(pair, terms_of(which, pair / 9))
}

// Of a party of so many: whether it is there, or is one past the last.
fn is_near(party: u16, count: usize) -> bool {
    usize::from(party) <= count
}

fn is_there(party: u16, count: usize) -> bool {
    usize::from(party) < count
}

fn hours_are_tried(which: Which, party: u16, count: usize, hours: u16) -> bool {
    match which {
        Which::Chosen => {
            if is_there(party, count) {
                hours < 3 || hours == 61
            } else {
                is_near(party, count) && (hours == 1 || hours == 61)
            }
        }
        Which::AtLimits => is_near(party, count),
    }
}

// Where one of the two is not there, terms within the limits and terms against them are enough for lists of three.
fn terms_are_tried(which: Which, there: bool, k: usize) -> bool {
    match which {
        Which::Chosen => there || k == 1 || k == 7,
        Which::AtLimits => true,
    }
}

fn pair_is_tried(which: Which, ticket: &[u16], call: &[u16; 8], k: usize) -> bool {
    let n = growers(ticket);
    let m = pilots(ticket);
    is_near(call[1], n)
        && is_near(call[2], m)
        && terms_are_tried(which, is_there(call[1], n) && is_there(call[2], m), k)
}

pub(crate) fn is_tried(which: Which, ticket: &[u16], call: &[u16; 8], k: usize) -> bool {
    if k < OF_PILOTS {
        return hours_are_tried(which, call[1], growers(ticket), call[2]);
    }
    if k < NO_CALLS {
        return hours_are_tried(which, call[1], pilots(ticket), call[2]);
    }
    if k < OF_PAIRS {
        return true;
    }
    pair_is_tried(which, ticket, call, (k - OF_PAIRS) / 9)
}
