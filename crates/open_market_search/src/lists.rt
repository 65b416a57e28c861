// Every list of up to three calls on an open market.
use super::calls::{Which, call, end, is_tried};
use super::held::{Held, after};
use super::replayed::{Calls, cut, no_calls, whole, with_call};
use open_market::Market;

// Where a list has come to, and whether its last call is one that is tried.
#[derive(Clone, Copy)]
struct Reached {
    held: Held,
    calls: Calls,
    is_new: bool,
}

// One call more.
fn step(
    opened: Market,
    before: Reached,
    which: Which,
    k: usize,
    tally: &mut [usize; 17],
) -> Reached {
    let held = before.held;
    let calls = before.calls;
    let ticket = held.ticket;
    let next = call(which, k);
    if !is_tried(which, &ticket, &next, k) {
        return Reached {
            held,
            calls,
            is_new: false,
        };
    }
    let calls = with_call(calls, &next);
    let later = after(held, &next, &mut *tally);
    whole(opened, calls, later, &mut *tally);
    Reached {
        held: later,
        calls,
        is_new: true,
    }
}

fn replayed_cut(opened: Market, before: Reached, longer: Reached, tally: &mut [usize; 17]) {
    let calls = longer.calls;
    let held = before.held;
    cut(opened, calls, held, tally);
}

fn last_calls(opened: Market, before: Reached, which: Which, tally: &mut [usize; 17]) {
    for k in 0..end(which) {
        step(opened, before, which, k, &mut *tally);
    }
}

fn last_two_calls(opened: Market, before: Reached, which: Which, tally: &mut [usize; 17]) {
    for k in 0..end(which) {
        let longer = step(opened, before, which, k, &mut *tally);
        if longer.is_new {
            replayed_cut(opened, before, longer, &mut *tally);
            last_calls(opened, longer, which, &mut *tally);
        }
    }
}

fn three_calls(opened: Market, before: Reached, which: Which, tally: &mut [usize; 17]) {
    for k in 0..end(which) {
        let longer = step(opened, before, which, k, &mut *tally);
        if longer.is_new {
            replayed_cut(opened, before, longer, &mut *tally);
            last_two_calls(opened, longer, which, &mut *tally);
        }
    }
}

// All lists of up to so many calls, at most three.
pub(crate) fn every(held: Held, which: Which, longest: usize, tally: &mut [usize; 17]) {
    let opened = held.market;
    let calls = no_calls();
    let begin = Reached {
        held,
        calls,
        is_new: true,
    };
    match longest {
        1 => last_calls(opened, begin, which, tally),
        2 => last_two_calls(opened, begin, which, tally),
        _ => three_calls(opened, begin, which, tally),
    }
}
