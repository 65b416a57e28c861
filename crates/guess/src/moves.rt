// Hours move along a way.
use crate::deals::{
    has_late, late_grower, less_free_deal, less_tariff, more, more_tariff, room, settle_price,
};
use crate::saturating::{ALL, plus};
use crate::state::{
    FREE_DEAL_HOURS, GROWER_FREE, MOST, PILOT_FREE, PRICE, SHARED, SOURCE, State, TARIFF_GAIN,
    TARIFF_HOURS, get, of, set,
};
use crate::ways::{Way, move_along, move_round, on_the_way, room_along, room_round};

// What the last pilot of a way does for the hours that come.
#[derive(Clone, Copy)]
pub(crate) enum Room {
    FreeHours,
    GivesUpTariff { k: usize },
    GivesUpFreeDeal { k: usize },
}

// Who asks next: a grower who gave up hours, or nobody new.
#[derive(Clone, Copy)]
pub(crate) enum Displaced {
    Nobody,
    Grower { k: usize },
}

fn hours_of(s: &State, j: usize, room: Room) -> u16 {
    match room {
        Room::FreeHours => of(s, PILOT_FREE, j),
        Room::GivesUpTariff { k } => get(s, TARIFF_HOURS, k, j),
        Room::GivesUpFreeDeal { k } => get(s, FREE_DEAL_HOURS, k, j),
    }
}

fn lose(s: &mut State, row: usize, k: usize, x: u16) {
    let hours = of(s, row, k).saturating_sub(x);
    set(&mut *s, row, k, hours);
}

fn displace(s: &mut State, k: usize, x: u16) -> Displaced {
    let hours = plus(of(s, GROWER_FREE, k), x);
    set(&mut *s, GROWER_FREE, k, hours);
    Displaced::Grower { k }
}

fn make_room(s: &mut State, j: usize, room: Room, x: u16) -> Displaced {
    match room {
        Room::FreeHours => {
            lose(&mut *s, PILOT_FREE, j, x);
            Displaced::Nobody
        }
        Room::GivesUpTariff { k } => {
            less_tariff(&mut *s, k, j, x);
            displace(&mut *s, k, x)
        }
        Room::GivesUpFreeDeal { k } => {
            less_free_deal(&mut *s, k, j, x);
            displace(&mut *s, k, x)
        }
    }
}

fn most_hours(s: &State, root: usize, last: Way, j: usize, given: Room) -> u16 {
    let asked = of(s, GROWER_FREE, root).min(hours_of(s, j, given));
    let fit = asked.min(room(s, last.tariff, last.grower, j));
    room_along(s, last, fit)
}

// As many hours as possible come from the source to pilot j.
pub(crate) fn come(s: &mut State, root: usize, last: Way, j: usize, given: Room) -> Displaced {
    let x = most_hours(s, root, last, j, given);
    lose(&mut *s, GROWER_FREE, root, x);
    let displaced = make_room(&mut *s, j, given, x);
    more(&mut *s, last.tariff, last.grower, j, x);
    move_along(&mut *s, last, x);
    settle_price(&mut *s, j);
    displaced
}

// Pilot j lies on the way to the grower who comes by the tariff: hours go round from j to j, and nobody loses any.
fn go_round(s: &mut State, last: Way, j: usize) -> Displaced {
    let x = room_round(s, last, j, room(s, true, last.grower, j));
    more_tariff(&mut *s, last.grower, j, x);
    move_round(&mut *s, last, j, x);
    settle_price(&mut *s, j);
    Displaced::Nobody
}

// What a grower loses with an hour of a free deal; all ones without one.
fn loss(s: &State, k: usize, j: usize) -> u16 {
    let gain = get(s, SHARED, j, k);
    if gain == ALL {
        ALL
    } else {
        gain.saturating_sub(of(s, PRICE, j))
            .saturating_sub(of(s, MOST, k))
    }
}

// Of those who hold free-deal hours, the one who loses least.
fn loser(s: &State, j: usize) -> usize {
    let mut loser = 0;
    let mut least = ALL;
    for k in 0..16usize {
        let loses = loss(s, k, j);
        if loses < least {
            loser = k;
            least = loses;
        }
    }
    loser
}

// The grower who comes by the tariff has free-deal hours with the same pilot, and they bring him no more.
fn has_worse(s: &State, grower: usize, j: usize) -> bool {
    let own = get(s, SHARED, j, grower);
    if own == ALL {
        false
    } else {
        own.saturating_sub(of(s, PRICE, j)) <= get(s, TARIFF_GAIN, grower, j)
    }
}

fn goes_round(s: &State, last: Way, j: usize) -> bool {
    if SOURCE <= last.from {
        has_worse(s, last.grower, j)
    } else {
        on_the_way(s, last.from, j)
    }
}

fn round_from(last: Way, j: usize) -> Way {
    let from = if SOURCE <= last.from { j } else { last.from };
    Way {
        grower: last.grower,
        from,
        tariff: true,
    }
}

// A pilot takes tariff hours: he has free or late ones for it, or gives up free-deal hours, which pay less.
pub(crate) fn come_by_tariff(s: &mut State, root: usize, last: Way, j: usize) -> Displaced {
    if 0 < of(s, PILOT_FREE, j) {
        return come(&mut *s, root, last, j, Room::FreeHours);
    }
    if has_late(s, j) {
        let k = late_grower(s, j);
        return come(&mut *s, root, last, j, Room::GivesUpTariff { k });
    }
    if goes_round(s, last, j) {
        return go_round(&mut *s, round_from(last, j), j);
    }
    let k = loser(s, j);
    come(&mut *s, root, last, j, Room::GivesUpFreeDeal { k })
}
