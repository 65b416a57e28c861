// Ways over which pilots are reached. A row of the state has the last step to each: 32 times the grower, and the pilot.
use crate::deals::{less_free_deal, more_free_deal, room};
use crate::state::{FREE_DEAL_HOURS, SOURCE, State, WAYS, get, of};

// The way to a pilot who is reached: the grower who comes, and the pilot whose hours he gives up for it.
#[derive(Clone, Copy)]
pub(crate) struct Way {
    pub grower: usize,
    pub from: usize,
    pub tariff: bool,
}

// A way has no more steps than there are pilots.
const MOST_STEPS: usize = 16;

pub(crate) fn mark(grower: usize, from: usize) -> u16 {
    (grower % 16 * 32 + from % 32) as u16
}

pub(crate) fn way_to(s: &State, l: usize) -> Way {
    let mark = of(s, WAYS, l);
    Way {
        grower: usize::from(mark / 32) % 16,
        from: usize::from(mark % 32),
        tariff: false,
    }
}

// Whether pilot j is l, or one over whom l was reached.
pub(crate) fn on_the_way(s: &State, last: usize, j: usize) -> bool {
    let mut l = last;
    for step in 0..MOST_STEPS {
        if l == j {
            return true;
        }
        if SOURCE <= l {
            return false;
        }
        let way = way_to(s, l);
        l = way.from;
    }
    false
}

// How many hours, at most so many, can come over a way, but for its last step.
pub(crate) fn room_along(s: &State, last: Way, most: u16) -> u16 {
    let mut x = most;
    let mut grower = last.grower;
    let mut l = last.from;
    for step in 0..MOST_STEPS {
        if SOURCE <= l {
            return x;
        }
        x = x.min(get(s, FREE_DEAL_HOURS, grower, l));
        let way = way_to(s, l);
        grower = way.grower;
        x = x.min(room(s, false, grower, l));
        l = way.from;
    }
    x
}

pub(crate) fn move_along(s: &mut State, last: Way, x: u16) {
    let mut grower = last.grower;
    let mut l = last.from;
    for step in 0..MOST_STEPS {
        if SOURCE <= l {
            return;
        }
        less_free_deal(&mut *s, grower, l, x);
        let way = way_to(s, l);
        grower = way.grower;
        more_free_deal(&mut *s, grower, l, x);
        l = way.from;
    }
}

// The same for a way that goes round, from pilot j to himself.
pub(crate) fn room_round(s: &State, last: Way, j: usize, most: u16) -> u16 {
    let mut x = most.min(get(s, FREE_DEAL_HOURS, last.grower, last.from));
    let mut l = last.from;
    for step in 0..MOST_STEPS {
        if l == j {
            return x;
        }
        let way = way_to(s, l);
        x = x.min(room(s, false, way.grower, l));
        x = x.min(get(s, FREE_DEAL_HOURS, way.grower, way.from));
        l = way.from;
    }
    x
}

pub(crate) fn move_round(s: &mut State, last: Way, j: usize, x: u16) {
    less_free_deal(&mut *s, last.grower, last.from, x);
    let mut l = last.from;
    for step in 0..MOST_STEPS {
        if l == j {
            return;
        }
        let way = way_to(s, l);
        more_free_deal(&mut *s, way.grower, l, x);
        less_free_deal(&mut *s, way.grower, way.from, x);
        l = way.from;
    }
}
