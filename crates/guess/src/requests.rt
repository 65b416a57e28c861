// Growers ask one after another; who loses hours asks next.
use crate::deals::{late_grower, more, room, settle_price, takes_tariff};
use crate::moves::{Displaced, Room, come, come_by_tariff};
use crate::pilots::{Wanted, first_with, has_free};
use crate::search::search;
use crate::sets::{NOBODY, bit, first, first_places, with, without, without_first};
use crate::state::{GROWER_FREE, PILOT_FREE, SOURCE, State, of, places_in, set};
use crate::tariffs::best_offers;
use crate::ways::Way;

// How many requests a guess may take. Far more than was ever seen.
const MOST_REQUESTS: usize = 20000;

// Growers with hours that may find a deal, as bits; and who asks next if he waits.
#[derive(Clone, Copy)]
struct Queue {
    waiting: u32,
    next: usize,
}

// Hours for the grower with a pilot, as many as both have free and the deal has room for.
fn add(s: &mut State, i: usize, j: usize, top: u16) {
    let tariff = takes_tariff(s, i, j, top);
    let pilot_free = of(s, PILOT_FREE, j);
    let grower_free = of(s, GROWER_FREE, i);
    let x = pilot_free.min(grower_free).min(room(s, tariff, i, j));
    set(&mut *s, PILOT_FREE, j, pilot_free.saturating_sub(x));
    set(&mut *s, GROWER_FREE, i, grower_free.saturating_sub(x));
    more(&mut *s, tariff, i, j, x);
    settle_price(&mut *s, j);
}

// The same with some pilots, one after another, while the grower has free hours; and whether any of them had some.
fn add_all(s: &mut State, i: usize, top: u16, ties: u32) -> bool {
    let mut left = ties;
    let mut added = false;
    for step in 0..16usize {
        if (left == 0) | (of(s, GROWER_FREE, i) == 0) {
            return added;
        }
        let j = first(left);
        if has_free(s, j) {
            add(&mut *s, i, j, top);
            added = true;
        }
        left = without_first(left);
    }
    added
}

// Hours from full pilots: by the tariff, or in place of late hours, or else over the pilots who tie.
fn serve(s: &mut State, i: usize, top: u16, ties: u32) -> Displaced {
    let by_tariff = first_with(
        s,
        ties,
        Wanted::Tariff {
            grower: i,
            worth: top,
        },
    );
    if by_tariff < NOBODY {
        let way = Way {
            grower: i,
            from: SOURCE,
            tariff: true,
        };
        return come_by_tariff(&mut *s, i, way, by_tariff);
    }
    let late = first_with(s, ties, Wanted::LateHour);
    if late < NOBODY {
        let way = Way {
            grower: i,
            from: SOURCE,
            tariff: false,
        };
        let k = late_grower(s, late);
        return come(&mut *s, i, way, late, Room::GivesUpTariff { k });
    }
    search(&mut *s, i, top)
}

fn leaves(queue: Queue, i: usize) -> Queue {
    Queue {
        waiting: without(queue.waiting, i),
        next: i,
    }
}

fn follows(queue: Queue, i: usize, displaced: Displaced) -> Queue {
    match displaced {
        Displaced::Nobody => Queue {
            waiting: queue.waiting,
            next: i,
        },
        Displaced::Grower { k } => Queue {
            waiting: with(queue.waiting, k),
            next: k,
        },
    }
}

// A grower with free hours asks the pilots whose offers are best. An offer of 1 is no more than a free hour is worth.
fn ask(s: &mut State, queue: Queue, i: usize) -> Queue {
    let mut offers = grid::zero_row();
    let top = best_offers(&mut *s, i, &mut offers);
    if top == 0 {
        return leaves(queue, i);
    }
    let ties = places_in(s, &offers, top);
    if add_all(&mut *s, i, top, ties) {
        return Queue {
            waiting: queue.waiting,
            next: i,
        };
    }
    if top == 1 {
        return leaves(queue, i);
    }
    let displaced = serve(&mut *s, i, top, ties);
    follows(queue, i, displaced)
}

fn next_grower(queue: Queue) -> usize {
    if queue.waiting & bit(queue.next) == 0 {
        first(queue.waiting)
    } else {
        queue.next
    }
}

fn request(s: &mut State, queue: Queue) -> Queue {
    let i = next_grower(queue);
    if of(s, GROWER_FREE, i) == 0 {
        leaves(queue, i)
    } else {
        ask(&mut *s, queue, i)
    }
}

pub(crate) fn run(s: &mut State, growers: usize) {
    let mut queue = Queue {
        waiting: first_places(growers),
        next: 0,
    };
    for turn in 0..MOST_REQUESTS {
        if queue.waiting == 0 {
            return;
        }
        queue = request(&mut *s, queue);
    }
}
