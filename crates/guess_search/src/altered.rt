// Settlements that differ from a guess in one number by one.
ghost use Rattle.std.specs.Prelude.{◌<◌};

use super::files::numbers;
use super::judged::judged;
use super::squares::is_certified;
use super::tally::ALTERED;
use plain::count;

fn judge(ticket: &[u8], settlement: &[u8; 15], tally: &mut [usize; 17]) {
    let certified = is_certified(&numbers(ticket), &numbers(settlement));
    count(tally, ALTERED + judged(ticket, settlement, certified));
}

// With another number at a place.
fn judge_with(ticket: &[u8], guess: &[u8; 15], place: usize, x: u8, tally: &mut [usize; 17])
    requires { place < 15 }
{
    let mut settlement = *guess;
    settlement[place] = x;
    judge(ticket, &settlement, tally);
}

// With one more, and with one less, as far as numbers below 128 go.
fn of_number(ticket: &[u8], guess: &[u8; 15], place: usize, tally: &mut [usize; 17])
    requires { place < 15 }
{
    let x = guess[place];
    if x < 127 {
        judge_with(ticket, guess, place, x + 1, &mut *tally);
    }
    if 0 < x {
        judge_with(ticket, guess, place, x - 1, tally);
    }
}

pub(crate) fn of_guess(ticket: &[u8], guess: &[u8; 15], tally: &mut [usize; 17]) {
    for place in 3..plain::settlement_length(ticket) {
        of_number(ticket, guess, place, &mut *tally);
    }
}
