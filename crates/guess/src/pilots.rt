// Which of some pilots has what a grower looks for.
use crate::deals::{has_late, takes_tariff};
use crate::sets::{NOBODY, first, without_first};
use crate::state::{PILOT_FREE, State, of};

// A late hour; a late or a free one; a tariff deal that offers the grower at least so much.
#[derive(Clone, Copy)]
pub(crate) enum Wanted {
    LateHour,
    AnyRoom,
    Tariff { grower: usize, worth: u16 },
}

pub(crate) fn has_free(s: &State, j: usize) -> bool {
    0 < of(s, PILOT_FREE, j)
}

fn has(s: &State, j: usize, wanted: Wanted) -> bool {
    match wanted {
        Wanted::LateHour => has_late(s, j),
        Wanted::AnyRoom => has_free(s, j) | has_late(s, j),
        Wanted::Tariff { grower, worth } => takes_tariff(s, grower, j, worth),
    }
}

// The first of some pilots who has it, or nobody.
pub(crate) fn first_with(s: &State, pilots: u32, wanted: Wanted) -> usize {
    let mut left = pilots;
    for step in 0..16usize {
        if left == 0 {
            return NOBODY;
        }
        let j = first(left);
        if has(s, j, wanted) {
            return j;
        }
        left = without_first(left);
    }
    NOBODY
}
