// What can happen while prices rise in a search. All times are by how much the prices of the pilots reached have risen.
use crate::rows;
use crate::saturating::{ALL, plus};
use crate::state::{
    ASKED, FREE_OPEN, JOINS, LOOKS, MOST, PRICE, REACHED, ROWS, SHARED, State, UNSEEN, WAYS, WITH,
    WORST, WORTHS, all_ones, of, set,
};

// A search: who asks, what his best offer was, how far prices have risen, when a tariff hour of a pilot reached becomes late and whose,
// and when the one who asks is to be looked at.
#[derive(Clone, Copy)]
pub(crate) struct Progress {
    pub root: usize,
    pub top: u16,
    pub now: u16,
    pub late: u16,
    pub late_pilot: usize,
    pub root_looks: u16,
}

pub(crate) fn clear(s: &mut State) {
    let never = all_ones();
    let none = grid::zero_row();
    s[ROWS][REACHED] = none;
    s[ROWS][JOINS] = never;
    s[ROWS][WORTHS] = never;
    s[ROWS][LOOKS] = never;
    s[ROWS][UNSEEN] = none;
}

// A row is lowered; and a value is noted in a row, wherever another was lowered.
fn lower(s: &mut State, row: usize, by: &[u16; 16]) {
    let mut lowered = s[ROWS][row % 16];
    rows::lower(&mut lowered, by);
    s[ROWS][row % 16] = lowered;
}

fn note(s: &mut State, row: usize, by: &[u16; 16], value: u16) {
    let mut noted = s[ROWS][row % 16];
    rows::note(&mut noted, by, value);
    s[ROWS][row % 16] = noted;
}

// By how much the free deals of a grower tie sooner than others do.
fn ties_sooner(s: &State, i: usize, worth: u16, now: u16, sooner: &mut [u16; 16]) {
    let mut times = grid::zero_row();
    let reached = &s[ROWS][REACHED];
    rows::times(
        &s[FREE_OPEN][i % 16],
        &s[ROWS][PRICE],
        reached,
        worth,
        now,
        &mut times,
    );
    rows::differences(&s[ROWS][JOINS], &times, sooner);
}

// When free deals tie with an hour that is worth so much now and falls.
pub(crate) fn tie(s: &mut State, i: usize, worth: u16, now: u16, mark: u16) {
    let mut sooner = grid::zero_row();
    ties_sooner(s, i, worth, now, &mut sooner);
    lower(&mut *s, JOINS, &sooner);
    note(&mut *s, WAYS, &sooner, mark);
}

// What the free-deal hours of growers with pilot j are worth, and by how much that is less than what is known of those reached before.
fn worths_with(s: &State, j: usize, worth: &mut [u16; 16], by: &mut [u16; 16]) {
    rows::worths(&s[SHARED][j % 16], of(s, PRICE, j), &mut *worth);
    rows::differences(&s[ROWS][WORTHS], worth, by);
}

fn note_looks(s: &mut State, by: &[u16; 16], worth: &[u16; 16], now: u16) {
    let most = s[ROWS][MOST];
    let mut looks = s[ROWS][LOOKS];
    rows::look_times(&mut looks, by, worth, &most, now);
    s[ROWS][LOOKS] = looks;
}

// The growers whose least hours are those with pilot j are to be looked at anew.
fn note_growers(s: &mut State, by: &[u16; 16], j: usize) {
    lower(&mut *s, WORTHS, by);
    note(&mut *s, WITH, by, (j % 16) as u16);
    note(&mut *s, UNSEEN, by, ALL);
}

// The growers who hold free-deal hours with a pilot who is reached now.
fn reach_growers(s: &mut State, j: usize, now: u16) {
    let mut worth = grid::zero_row();
    let mut by = grid::zero_row();
    worths_with(s, j, &mut worth, &mut by);
    note_looks(&mut *s, &by, &worth, now);
    note_growers(&mut *s, &by, j);
}

fn late_time(s: &State, progress: Progress, j: usize) -> u16 {
    let worst = of(s, WORST, j);
    if worst == ALL {
        ALL
    } else {
        plus(worst.saturating_sub(of(s, PRICE, j)), progress.now)
    }
}

// The price of pilot j begins to rise.
pub(crate) fn reach(s: &mut State, progress: Progress, j: usize) -> Progress {
    let mut next = progress;
    set(&mut *s, JOINS, j, ALL);
    set(&mut *s, REACHED, j, ALL);
    let late = late_time(s, progress, j);
    if late < progress.late {
        next.late = late;
        next.late_pilot = j;
    }
    reach_growers(&mut *s, j, progress.now);
    next
}

fn lift(s: &mut State, row: usize, by: u16) {
    let reached = s[ROWS][REACHED];
    let mut lifted = s[ROWS][row % 16];
    rows::lift(&mut lifted, &reached, by);
    s[ROWS][row % 16] = lifted;
}

// What the hours of growers reached are worth falls as prices rise. When they are worth nothing need not be a number of 16 bits.
fn fall(s: &mut State, by: u16) {
    let mut fallen = grid::zero_row();
    rows::worths(&s[ROWS][WORTHS], by, &mut fallen);
    s[ROWS][WORTHS] = fallen;
}

pub(crate) fn rise(s: &mut State, progress: Progress, at: u16) -> Progress {
    let mut next = progress;
    if progress.now < at {
        let by = at - progress.now;
        lift(&mut *s, PRICE, by);
        lift(&mut *s, ASKED, by);
        fall(&mut *s, by);
        next.now = at;
    }
    next
}
