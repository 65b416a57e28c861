// The search: prices of pilots who tie rise together until somebody finds hours.
use crate::deals::late_grower;
use crate::events::{Progress, clear, reach, rise, tie};
use crate::moves::{Displaced, Room, come, come_by_tariff};
use crate::pilots::{Wanted, first_with};
use crate::saturating::{ALL, plus};
use crate::sets::{EVERYBODY, NOBODY, first, without_first};
use crate::state::{
    JOINS, LOOKS, PILOT_FREE, ROWS, SOURCE, State, UNSEEN, WITH, WORTHS, least_of, of, place_of,
    places_of, set,
};
use crate::tariffs::{best_outside, tariff_time};
use crate::ways::{Way, mark, way_to};

// How many events a search may take. Far more than was ever seen.
const MOST_EVENTS: usize = 2000;

// Whether the search goes on.
#[derive(Clone, Copy)]
enum Step {
    On { progress: Progress },
    Stop { displaced: Displaced },
}

// A pilot who has room for hours.
#[derive(Clone, Copy)]
enum Found {
    Nobody,
    Pilot { j: usize, given: Room },
}

// How a pilot who has a free hour, or else a late one, makes room.
fn room_of(s: &State, j: usize) -> Room {
    if 0 < of(s, PILOT_FREE, j) {
        return Room::FreeHours;
    }
    let k = late_grower(s, j);
    Room::GivesUpTariff { k }
}

// One who is reached now and has room; or whose tariff hour becomes late; or whose free-deal hour is worth nothing any more.
fn find(s: &State, progress: Progress, new: u32, end: u16) -> Found {
    let j = first_with(s, new, Wanted::AnyRoom);
    if j < NOBODY {
        return Found::Pilot {
            j,
            given: room_of(s, j),
        };
    }
    if progress.late == progress.now {
        let k = late_grower(s, progress.late_pilot);
        return Found::Pilot {
            j: progress.late_pilot,
            given: Room::GivesUpTariff { k },
        };
    }
    if end == progress.now {
        let k = first(places_of(s, ROWS, WORTHS, 1));
        return Found::Pilot {
            j: place_of(s, WITH, k),
            given: Room::GivesUpFreeDeal { k },
        };
    }
    Found::Nobody
}

fn by_tariff(s: &mut State, progress: Progress, grower: usize, from: usize, j: usize) -> Step {
    let way = Way {
        grower,
        from,
        tariff: true,
    };
    Step::Stop {
        displaced: come_by_tariff(&mut *s, progress.root, way, j),
    }
}

// A pilot whose tariff offers a grower at least so much.
fn tariff_tie(s: &State, grower: usize, worth: u16) -> usize {
    first_with(s, EVERYBODY, Wanted::Tariff { grower, worth })
}

// The one who asks is looked at: does a tariff tie?
fn look_at_root(s: &mut State, progress: Progress) -> Step {
    let worth = progress.top.saturating_sub(progress.now);
    let j = tariff_tie(s, progress.root, worth);
    if j < NOBODY {
        return by_tariff(&mut *s, progress, progress.root, SOURCE, j);
    }
    let mut next = progress;
    next.root_looks = tariff_time(s, progress.root, worth, progress.now);
    Step::On { progress: next }
}

// A grower whose hour with pilot `from` is worth so much is looked at for the first time.
fn look_first(s: &mut State, k: usize, from: usize, worth: u16, now: u16) {
    let other = best_outside(&mut *s, k);
    if other < worth {
        set(&mut *s, LOOKS, k, plus(now, worth - other));
    } else {
        set(&mut *s, UNSEEN, k, 0);
        tie(&mut *s, k, worth, now, mark(k, from));
        let time = tariff_time(s, k, worth, now);
        set(&mut *s, LOOKS, k, time);
    }
}

fn look_again(s: &mut State, progress: Progress, k: usize, from: usize, worth: u16) -> Step {
    let j = tariff_tie(s, k, worth);
    if j < NOBODY {
        return by_tariff(&mut *s, progress, k, from, j);
    }
    let time = tariff_time(s, k, worth, progress.now);
    set(&mut *s, LOOKS, k, time);
    Step::On { progress }
}

fn look_at_grower(s: &mut State, progress: Progress, k: usize) -> Step {
    let worth = of(s, WORTHS, k);
    let from = place_of(s, WITH, k);
    if of(s, UNSEEN, k) == 0 {
        look_again(&mut *s, progress, k, from, worth)
    } else {
        look_first(&mut *s, k, from, worth, progress.now);
        Step::On { progress }
    }
}

// All growers whose time it is, one after another, until a tariff ties.
fn look_at_growers(s: &mut State, progress: Progress) -> Step {
    let mut left = places_of(s, ROWS, LOOKS, progress.now);
    for turn in 0..16usize {
        if left == 0 {
            return Step::On { progress };
        }
        let step = look_at_grower(&mut *s, progress, first(left));
        if let Step::Stop { displaced } = step {
            return Step::Stop { displaced };
        }
        left = without_first(left);
    }
    Step::On { progress }
}

// The prices of some pilots begin to rise.
fn reach_all(s: &mut State, progress: Progress, new: u32) -> Progress {
    let mut next = progress;
    let mut left = new;
    for turn in 0..16usize {
        if left == 0 {
            return next;
        }
        next = reach(&mut *s, next, first(left));
        left = without_first(left);
    }
    next
}

// Nobody has room yet: look at growers, or raise the prices of more pilots, unless an hour is worth nothing more to the one who asks.
fn go_on(s: &mut State, progress: Progress, new: u32, look: u16) -> Step {
    if progress.root_looks == progress.now {
        return look_at_root(&mut *s, progress);
    }
    if look == progress.now {
        return look_at_growers(&mut *s, progress);
    }
    if progress.now == progress.top.saturating_sub(1) {
        return Step::Stop {
            displaced: Displaced::Nobody,
        };
    }
    Step::On {
        progress: reach_all(&mut *s, progress, new),
    }
}

fn joined(s: &State, join: u16, now: u16) -> u32 {
    if join == now {
        places_of(s, ROWS, JOINS, now)
    } else {
        0
    }
}

// When the next pilot is reached, the next hour ends, and the next grower is to be looked at.
#[derive(Clone, Copy)]
struct Times {
    join: u16,
    end: u16,
    look: u16,
}

fn times_of(s: &State, now: u16) -> Times {
    let join = least_of(s, ROWS, JOINS);
    let end = plus(least_of(s, ROWS, WORTHS).saturating_sub(1), now);
    let look = least_of(s, ROWS, LOOKS);
    Times { join, end, look }
}

fn soonest(progress: Progress, times: Times) -> u16 {
    let soon = times
        .join
        .min(times.end)
        .min(times.look.min(progress.root_looks));
    soon.min(progress.late.min(progress.top.saturating_sub(1)))
}

fn happen(s: &mut State, progress: Progress, new: u32, times: Times) -> Step {
    let found = find(s, progress, new, times.end);
    match found {
        Found::Nobody => go_on(&mut *s, progress, new, times.look),
        Found::Pilot { j, given } => {
            let way = way_to(s, j);
            Step::Stop {
                displaced: come(&mut *s, progress.root, way, j, given),
            }
        }
    }
}

fn next_step(s: &mut State, progress: Progress) -> Step {
    let times = times_of(s, progress.now);
    let next = rise(&mut *s, progress, soonest(progress, times));
    let new = joined(s, times.join, next.now);
    happen(&mut *s, next, new, times)
}

fn begin(s: &mut State, root: usize, top: u16) -> Progress {
    clear(&mut *s);
    tie(&mut *s, root, top, 0, mark(root, SOURCE));
    let root_looks = tariff_time(s, root, top, 0);
    Progress {
        root,
        top,
        now: 0,
        late: ALL,
        late_pilot: 0,
        root_looks,
    }
}

pub(crate) fn search(s: &mut State, root: usize, top: u16) -> Displaced {
    let mut progress = begin(&mut *s, root, top);
    for event in 0..MOST_EVENTS {
        let step = next_step(&mut *s, progress);
        match step {
            Step::On { progress: next } => {
                progress = next;
            }
            Step::Stop { displaced } => {
                return displaced;
            }
        }
    }
    Displaced::Nobody
}
