// What is held between calls, beside what the paper says is held; and both after one more call.
use super::free::compare_free_hours;
use super::judged::judged;
use super::paper::{GROWER, PAIR, PILOT, Refused, answered, value};
use super::tally::{
    ACCEPTED, AGAINST_LIMITS, CHANGED, NO_PARTY, NUMBERS_LEFT, OTHER_ANSWER, OTHER_TICKET,
};
use open_market::{Market, Terms};
use plain::count;
use reader::Refusal;

// A market, the ticket's numbers by the paper, and the first refusal of the calls so far.
#[derive(Clone, Copy)]
pub(crate) struct Held {
    pub market: Market,
    pub ticket: [u16; 27],
    pub refused: Option<Refused>,
}

// Whether two lists differ in no place. All are looked at, which is quicker than to stop.
fn same_ticket(list: &[u16; 1315], other: &[u16; 1315]) -> bool {
    let mut differ: u16 = 0;
    for place in 0..1315usize {
        differ = differ | (list[place] ^ other[place]);
    }
    differ == 0
}

fn same_settlement(list: &[u16; 771], other: &[u16; 771]) -> bool {
    let mut differ: u16 = 0;
    for place in 0..771usize {
        differ = differ | (list[place] ^ other[place]);
    }
    differ == 0
}

fn same_row(row: &[u16; 16], other: &[u16; 16]) -> bool {
    let mut differ: u16 = 0;
    for place in 0..16usize {
        differ = differ | (row[place] ^ other[place]);
    }
    differ == 0
}

fn same_free_hours(market: Market, other: Market) -> bool {
    same_row(&market.grower_free_hours, &other.grower_free_hours)
        && same_row(&market.pilot_free_hours, &other.pilot_free_hours)
}

pub(crate) fn is_same(market: Market, other: Market) -> bool {
    same_ticket(&market.ticket, &other.ticket)
        && same_settlement(&market.settlement, &other.settlement)
        && same_free_hours(market, other)
}

// A small ticket's numbers and the three of each pair's agreement, each with 0 after them.
fn ticket_held(ticket: &[u16; 27]) -> [u16; 1315] {
    let mut list = numbers::ticket_list();
    for place in 0..27usize {
        list[place] = ticket[place];
    }
    list
}

fn settlement_held(settlement: &[u16; 771]) -> [u16; 771] {
    let mut list = numbers::settlement_list();
    let front = tables::settlement_front(settlement);
    for place in 0..15usize {
        list[place] = value(front, place);
    }
    list
}

// The ticket's numbers, and 0 after them; 0 after those of the settlement; everybody's free hours.
pub(crate) fn compare_market(market: Market, ticket: &[u16; 27], tally: &mut [usize; 17]) {
    let known = ticket_held(ticket);
    if !same_ticket(&market.ticket, &known) {
        count(&mut *tally, OTHER_TICKET);
    }
    let front = settlement_held(&market.settlement);
    if !same_settlement(&market.settlement, &front) {
        count(&mut *tally, NUMBERS_LEFT);
    }
    compare_free_hours(market, ticket, tally);
}

fn place_of(told: Result<[u16; 27], Refused>) -> usize {
    match told {
        Ok(_) => ACCEPTED,
        Err(Refused::NoParty) => NO_PARTY,
        Err(Refused::AgainstLimits) => AGAINST_LIMITS,
    }
}

// What a call comes to, beside what the paper says, and what is held after it beside what was. A market that refuses stays as it was.
fn compare(
    before: Market,
    made: Result<Market, Refusal>,
    told: Result<[u16; 27], Refused>,
    after: Held,
    tally: &mut [usize; 17],
) {
    count(&mut *tally, place_of(told));
    let given = made.err().map(|why| u8::from(why));
    let wanted = told.err().map(|why| why.number());
    if given != wanted {
        count(&mut *tally, OTHER_ANSWER);
    }
    compare_market(after.market, &after.ticket, &mut *tally);
    if told.is_ok() {
        count(tally, judged(&after.ticket, after.market));
    } else if !is_same(before, after.market) {
        count(tally, CHANGED);
    }
}

fn terms(call: &[u16; 8]) -> Terms {
    Terms {
        tariff_cap: call[3],
        tariff_gain: call[4],
        tariff_pay: call[5],
        free_cap: call[6],
        joint_gain: call[7],
    }
}

// What is no call can only be replayed; here it is refused as there.
fn answer(market: Market, call: &[u16; 8]) -> Result<Market, Refusal> {
    let kind = call[0];
    if kind == GROWER {
        open_market::set_grower_hours(market, call[1], call[2])
    } else if kind == PILOT {
        open_market::set_pilot_hours(market, call[1], call[2])
    } else if kind == PAIR {
        open_market::set_pair(market, call[1], call[2], terms(call))
    } else {
        Err(Refusal::AgainstLimits)
    }
}

pub(crate) fn after(held: Held, call: &[u16; 8], tally: &mut [usize; 17]) -> Held {
    let made = answer(held.market, call);
    let told = answered(held.ticket, call);
    let after = Held {
        market: open_market::market_after(made, held.market),
        ticket: told.unwrap_or(held.ticket),
        refused: held.refused.or(told.err()),
    };
    compare(held.market, made, told, after, tally);
    after
}
