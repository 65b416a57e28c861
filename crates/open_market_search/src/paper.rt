// What the calls make of a small ticket's numbers, by the words of the paper. A ticket has at most two growers and two pilots here.
ghost use Rattle.std.specs.Prelude.{◌+◌, ◌<◌, ◌≤◌};

// Why the paper refuses a call.
#[derive(Clone, Copy, Debug, PartialEq, Eq)]
pub(crate) enum Refused {
    NoParty,
    AgainstLimits,
}

impl Refused {
    // Its number on paper.
    pub(crate) fn number(self) -> u8 {
        match self {
            Refused::NoParty => 19,
            Refused::AgainstLimits => 20,
        }
    }
}

// The first number of a call says which it is.
pub(crate) const GROWER: u16 = 1;

pub(crate) const PILOT: u16 = 2;

pub(crate) const PAIR: u16 = 3;

pub(crate) fn value(list: &[u16], place: usize) -> u16 {
    if place < list.len() { list[place] } else { 0 }
}

fn two_at_most(x: u16) -> usize
    ensures { result < 3 }
{
    match x {
        0 => 0,
        1 => 1,
        _ => 2,
    }
}

pub(crate) fn growers(ticket: &[u16]) -> usize
    ensures { result < 3 }
{
    two_at_most(value(ticket, 1))
}

pub(crate) fn pilots(ticket: &[u16]) -> usize
    ensures { result < 3 }
{
    two_at_most(value(ticket, 2))
}

// Where the numbers of the pairs begin.
fn pairs_begin(ticket: &[u16]) -> usize
    ensures { result < 8 }
{
    3 + growers(ticket) + pilots(ticket)
}

// How many pairs there are of so many growers, and so before a grower's own.
pub(crate) fn pairs_of(ticket: &[u16], growers: usize) -> usize
    requires { growers < 65536 }
    ensures { result ≤ growers + growers }
{
    if pilots(ticket) == 2 {
        growers + growers
    } else {
        growers
    }
}

// How many numbers there are.
pub(crate) fn ticket_length(ticket: &[u16]) -> usize
    ensures { result < 28 }
{
    pairs_begin(ticket) + 5 * pairs_of(ticket, growers(ticket))
}

fn put(ticket: &mut [u16; 27], place: usize, x: u16) {
    if place < 27 {
        ticket[place] = x;
    }
}

// Who meet in a pair.
fn grower_at(ticket: &[u16], pair: usize) -> usize {
    if pilots(ticket) == 2 { pair / 2 } else { pair }
}

fn pilot_at(ticket: &[u16], pair: usize) -> usize {
    if pilots(ticket) == 2 { pair % 2 } else { 0 }
}

// Whether a pair is one of a party's: a grower's, or a pilot's.
pub(crate) fn is_of(ticket: &[u16], pair: usize, kind: u16, party: usize) -> bool {
    if kind == GROWER {
        grower_at(ticket, pair) == party
    } else {
        pilot_at(ticket, pair) == party
    }
}

// Every number of a party's pairs is set to 0.
fn clear(ticket: &mut [u16; 27], kind: u16, party: usize) {
    let begin = pairs_begin(&*ticket);
    for after in 0..20usize {
        if is_of(&*ticket, after / 5, kind, party) {
            put(&mut *ticket, begin + after, 0);
        }
    }
}

pub(crate) fn is_there(ticket: &[u16], kind: u16, party: usize) -> bool {
    if kind == GROWER {
        party < growers(ticket)
    } else {
        party < pilots(ticket)
    }
}

pub(crate) fn hours_place(ticket: &[u16], kind: u16, party: usize) -> usize
    requires { party < 65536 }
    ensures { result < 65600 }
{
    if kind == GROWER {
        3 + party
    } else {
        3 + growers(ticket) + party
    }
}

fn hours_told(ticket: [u16; 27], kind: u16, party: usize, hours: u16) -> Result<[u16; 27], Refused>
    requires { party < 65536 }
{
    if !is_there(&ticket, kind, party) {
        return Err(Refused::NoParty);
    }
    if hours > 60 {
        return Err(Refused::AgainstLimits);
    }
    let mut after = ticket;
    let place = hours_place(&after, kind, party);
    put(&mut after, place, hours);
    if hours == 0 {
        clear(&mut after, kind, party);
    }
    Ok(after)
}

fn has_no_hours(ticket: &[u16], kind: u16, party: usize) -> bool
    requires { party < 65536 }
{
    value(ticket, hours_place(ticket, kind, party)) == 0
}

// A deal against the limits: its cap, its amounts (a free deal has one, and 0 here), and whether one of the two has no hours.
fn is_wrong_deal(cap: u16, amount: u16, other: u16, none: bool) -> bool {
    if cap == 0 {
        return amount != 0 || other != 0;
    }
    none || cap > 60 || amount > 500 || other > 500
}

fn pair_place(ticket: &[u16], grower: usize, pilot: usize) -> usize
    requires { (grower < 65536) × (pilot < 65536) }
    ensures { result < 1000000 }
{
    pairs_begin(ticket) + 5 * (pairs_of(ticket, grower) + pilot)
}

// The five numbers of a pair stand after kind, grower and pilot in the call.
fn pair_told(
    ticket: [u16; 27],
    grower: usize,
    pilot: usize,
    call: &[u16; 8],
) -> Result<[u16; 27], Refused>
    requires { (grower < 65536) × (pilot < 65536) }
{
    if !is_there(&ticket, GROWER, grower) || !is_there(&ticket, PILOT, pilot) {
        return Err(Refused::NoParty);
    }
    let none = has_no_hours(&ticket, GROWER, grower) || has_no_hours(&ticket, PILOT, pilot);
    if is_wrong_deal(call[3], call[4], call[5], none) || is_wrong_deal(call[6], call[7], 0, none) {
        return Err(Refused::AgainstLimits);
    }
    let mut after = ticket;
    let place = pair_place(&after, grower, pilot);
    for k in 0..5usize {
        put(&mut after, place + k, call[3 + k]);
    }
    Ok(after)
}

// The numbers of a ticket after a call, 0 past their end. Another kind is no call.
pub(crate) fn answered(ticket: [u16; 27], call: &[u16; 8]) -> Result<[u16; 27], Refused> {
    let kind = call[0];
    let one = usize::from(call[1]);
    if kind == GROWER || kind == PILOT {
        hours_told(ticket, kind, one, call[2])
    } else if kind == PAIR {
        pair_told(ticket, one, usize::from(call[2]), call)
    } else {
        Err(Refused::AgainstLimits)
    }
}
