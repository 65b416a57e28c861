// The worth that the marker gives with what was settled, beside the greatest of all feasible settlements.
use super::tally::{ONLY_FREE, OTHER_WORTH, WORTH_SOMETHING};
use plain::count;

pub(crate) fn compare(ticket: &[u8], ours: &[u8; 19], tally: &mut [usize; 17]) {
    let Some(greatest) = plain::greatest_worth(ticket) else {
        return;
    };
    count(&mut *tally, ONLY_FREE);
    if 0 < greatest {
        count(&mut *tally, WORTH_SOMETHING);
    }
    let settlement = ascii::front(ours, plain::settlement_length(ticket));
    let given = verdicts::values_of(marker::mark(ticket, settlement));
    if given.worth != greatest as u64 {
        count(tally, OTHER_WORTH);
    }
}
