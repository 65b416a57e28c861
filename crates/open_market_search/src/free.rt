// The free hours held, beside sums over the deals of the settlement held: a party's free hours and those in its deals are its own.
ghost use Rattle.std.specs.Prelude.{◌<◌};

use super::paper::{GROWER, PILOT, growers, hours_place, is_of, is_there, pairs_of, value};
use super::tally::{COMPARED, OTHER_FREE_HOURS};
use open_market::Market;
use plain::count;

// The hours in both deals of a pair, if it is one of a party's. In a settlement a pair has three numbers, and the third is no hours.
fn pair_hours(ticket: &[u16], settlement: &[u16], kind: u16, party: usize, pair: usize) -> usize
    requires { pair < 65536 }
    ensures { result < 131072 }
{
    if is_of(ticket, pair, kind, party) {
        let place = 3 + 3 * pair;
        usize::from(value(settlement, place)) + usize::from(value(settlement, place + 1))
    } else {
        0
    }
}

fn deal_hours(ticket: &[u16], settlement: &[u16], kind: u16, party: usize) -> usize
    ensures { result < 1000000 }
{
    let end = pairs_of(ticket, growers(ticket));
    let mut hours: usize = 0;
    for pair in 0..end {
        hours = hours + pair_hours(ticket, settlement, kind, party, pair);
    }
    hours
}

// Whether so many hours of a party are free. Who is not there has none.
fn are_free(ticket: &[u16], settlement: &[u16], kind: u16, party: usize, hours: u16) -> bool
    requires { party < 65536 }
{
    if !is_there(ticket, kind, party) {
        return hours == 0;
    }
    let own = value(ticket, hours_place(ticket, kind, party));
    let in_deals = deal_hours(ticket, settlement, kind, party);
    usize::from(hours) + in_deals == usize::from(own)
}

// Every figure of a row, also beyond the last party.
fn all_are_free(ticket: &[u16], settlement: &[u16], kind: u16, row: &[u16; 16]) -> bool {
    for party in 0..16usize {
        if !are_free(ticket, settlement, kind, party, row[party]) {
            return false;
        }
    }
    true
}

pub(crate) fn compare_free_hours(market: Market, ticket: &[u16; 27], tally: &mut [usize; 17]) {
    count(&mut *tally, COMPARED);
    let settlement = market.settlement;
    let of_growers = all_are_free(ticket, &settlement, GROWER, &market.grower_free_hours);
    let of_pilots = all_are_free(ticket, &settlement, PILOT, &market.pilot_free_hours);
    if !(of_growers && of_pilots) {
        count(tally, OTHER_FREE_HOURS);
    }
}
