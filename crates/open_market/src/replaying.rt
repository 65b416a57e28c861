// A list of calls, eight numbers each, done one after another.
ghost use Rattle.std.specs.Prelude.{◌≡◌, ◌+◌, ◌/◌, ◌≤◌, get_or, length};
ghost use Rattle.open_market.specs.Lists.{terms_at, call_of, call_from};
ghost use Rattle.open_market.specs.Markets.{Called, Next, Replayed};

use crate::calls::{set_grower_hours, set_pair, set_pilot_hours};
use crate::held::Market;
use checks::Refusal;
use offers::Terms;

// How many numbers a call has.
const CALL: usize = 8;

// The five numbers from a place on.
fn terms_at(calls: &[u16], at: usize) -> Terms
    requires { at + 5 ≤ length calls.now }
    ensures { result ≡ terms_at calls.now at }
{
    Terms {
        tariff_cap: calls[at],
        tariff_gain: calls[at + 1],
        tariff_pay: calls[at + 2],
        free_cap: calls[at + 3],
        joint_gain: calls[at + 4],
    }
}

// The call whose eight numbers begin at a place.
fn whole_call(market: Market, calls: &[u16], at: usize) -> Result<Market, Refusal>
    requires { at + 8 ≤ length calls.now }
    ensures { Called (call_of (get_or calls.now at 0) calls.now at) market result }
{
    let kind = calls[at];
    let one = calls[at + 1];
    let two = calls[at + 2];
    match kind {
        1 => set_grower_hours(market, one, two),
        2 => set_pilot_hours(market, one, two),
        3 => set_pair(market, one, two, terms_at(calls, at + 3)),
        _ => Err(Refusal::AgainstLimits),
    }
}

// The same where the list may end too early.
fn call_from(market: Market, calls: &[u16], at: usize) -> Result<Market, Refusal>
    requires { at ≤ length calls.now }
    ensures { Called (call_from calls.now at) market result }
{
    if calls.len() - at < CALL {
        return Err(Refusal::AgainstLimits);
    }
    whole_call(market, calls, at)
}

// One call more, after others: the first refusal stays, and a refused call leaves the market.
fn call_next(
    before: Result<(), Refusal>,
    market: Market,
    calls: &[u16],
    at: usize,
) -> (Result<(), Refusal>, Market)
    requires { at ≤ length calls.now }
    ensures { Next (call_from calls.now at) before market result.0 result.1 }
{
    match call_from(market, calls, at) {
        Ok(next) => (before, next),
        Err(why) => (before.and(Err(why)), market),
    }
}

// How many calls a list has. One that is cut short counts.
fn count(calls: &[u16]) -> usize
    ensures { result ≡ (length calls.now + 7) / 8 }
{
    let whole = calls.len() / CALL;
    if calls.len() % CALL == 0 {
        return whole;
    }
    whole + 1
}

// Does the calls of a list. Answers the first refusal among them, and the market after all.
pub fn replay(market: Market, calls: &[u16]) -> (Result<(), Refusal>, Market)
    ensures { Replayed market calls.now result.0 result.1 }
{
    let end = count(calls);
    let mut first = Ok(());
    let mut last = market;
    // by number: the last call may be cut short, and counts
    for k in 0..end {
        let (refusal, next) = call_next(first, last, calls, CALL * k);
        first = refusal;
        last = next;
    }
    (first, last)
}
