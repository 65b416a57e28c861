// The same calls given to `replay` as one list: whole, and with its last call cut short.
ghost use Rattle.std.specs.Prelude.{◌<◌};

use super::held::{Held, is_same};
use super::paper::Refused;
use super::tally::{CUT, OTHER_REPLAY, REPLAYED};
use open_market::Market;
use plain::count;

// Up to three calls, one after another, and how many.
#[derive(Clone, Copy)]
pub(crate) struct Calls {
    pub numbers: [u16; 24],
    pub count: usize,
}

pub(crate) fn no_calls() -> Calls {
    let numbers: [u16; 24] = [0; 24];
    Calls { numbers, count: 0 }
}

// How many numbers so many calls have.
fn length(count: usize) -> usize
    ensures { result < 25 }
{
    if count < 3 { 8 * count } else { 24 }
}

fn put(numbers: &mut [u16; 24], place: usize, x: u16) {
    if place < 24 {
        numbers[place] = x;
    }
}

// What is there already has fewer than three calls.
pub(crate) fn with_call(calls: Calls, call: &[u16; 8]) -> Calls {
    let mut numbers = calls.numbers;
    let begin = length(calls.count);
    for k in 0..8usize {
        put(&mut numbers, begin + k, call[k]);
    }
    Calls {
        numbers,
        count: begin / 8 + 1,
    }
}

fn compare(
    opened: Market,
    calls: &[u16],
    market: Market,
    refused: Option<Refused>,
    tally: &mut [usize; 17],
) {
    let (outcome, end) = open_market::replay(opened, calls);
    let told = outcome.err().map(|why| u8::from(why));
    let wanted = refused.map(|why| why.number());
    if told != wanted || !is_same(end, market) {
        count(tally, OTHER_REPLAY);
    }
}

pub(crate) fn whole(opened: Market, calls: Calls, held: Held, tally: &mut [usize; 17]) {
    count(&mut *tally, REPLAYED);
    let numbers = calls.numbers;
    let market = held.market;
    let list = numbers::front(&numbers, length(calls.count));
    compare(opened, list, market, held.refused, tally);
}

// `held` is what is held before the last call. With one to seven numbers less that call is none.
pub(crate) fn cut(opened: Market, calls: Calls, held: Held, tally: &mut [usize; 17]) {
    let numbers = calls.numbers;
    let whole = length(calls.count);
    let market = held.market;
    let refused = held.refused.or(Some(Refused::AgainstLimits));
    for by in 1..8usize {
        count(&mut *tally, CUT);
        let list = numbers::front(&numbers, whole.saturating_sub(by));
        compare(opened, list, market, refused, &mut *tally);
    }
}
