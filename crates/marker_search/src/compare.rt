// The marker's answer beside that of the plain search, field by field, and the count of what came of it.
use market::Deal;
use plain::{Answer, Kind, WITHOUT_HOURS, count, first_settlement, settlement_length, verdict};
use verdicts::Values;

// A tally's places: 0 for answers that differ, 1 to 8 for the verdicts that were compared, 9 for tickets, 10 for settlements
// within the limits, 11 for those compared, 12 for tickets that are refused, 13 for those without tariff deals that are not; 14 for their
// sound settlements, 15 for those of them that are worth something, 16 for worths that differ, of any settlement.
pub(crate) const DIFFERENT: usize = 0;

pub(crate) const TICKETS: usize = 9;

pub(crate) const WITHIN: usize = 10;

pub(crate) const COMPARED: usize = 11;

pub(crate) const REFUSED: usize = 12;

pub(crate) const ONLY_FREE: usize = 13;

pub(crate) const PROMISED: usize = 14;

pub(crate) const WORTH_SOMETHING: usize = 15;

pub(crate) const OTHER_WORTH: usize = 16;

fn number_of(deal: Deal) -> usize {
    match deal {
        Deal::Tariff => 0,
        Deal::Free => 1,
    }
}

// The plain answer is the marker's verdict by its values on paper. A refusal has the verdict 0, which the plain search never answers.
fn is_answer(wanted: Answer, values: Values) -> bool {
    wanted.kind.number() == values.verdict
        && wanted.grower == values.grower
        && wanted.pilot == values.pilot
        && wanted.deal == number_of(values.deal)
        && wanted.count == values.count
}

fn count_if(is_met: bool, tally: &mut [usize; 17], place: usize) {
    if is_met {
        count(tally, place);
    }
}

// Only a sound settlement has a worth: the greatest, if that is promised.
fn compare_worth(is_sound: bool, greatest: Option<usize>, worth: u64, tally: &mut [usize; 17]) {
    let wanted = if is_sound { greatest.unwrap_or(0) } else { 0 };
    count_if(is_sound && greatest.is_some(), &mut *tally, PROMISED);
    count_if(0 < wanted, &mut *tally, WORTH_SOMETHING);
    count_if(worth != wanted as u64, tally, OTHER_WORTH);
}

// A settlement judged by the plain search and by the marker.
pub(crate) fn judge(
    ticket: &[u8],
    all: &[u8; 15],
    greatest: Option<usize>,
    tally: &mut [usize; 17],
) {
    let settlement = ascii::front(all, settlement_length(ticket));
    let wanted = verdict(ticket, settlement);
    let given = verdicts::values_of(marker::mark(ticket, settlement));
    count(&mut *tally, usize::from(wanted.kind.number()));
    count_if(!is_answer(wanted, given), &mut *tally, DIFFERENT);
    compare_worth(
        wanted.kind == Kind::Sound,
        greatest,
        given.worth,
        &mut *tally,
    );
    count(tally, COMPARED);
}

// The same of a settlement within its ticket's limits.
pub(crate) fn within(
    ticket: &[u8],
    all: &[u8; 15],
    greatest: Option<usize>,
    tally: &mut [usize; 17],
) {
    count(&mut *tally, WITHIN);
    judge(ticket, all, greatest, tally);
}

// A ticket that the plain check refuses: so must the marker, whose answer to any other ticket is compared with a verdict. It has no worth.
pub(crate) fn refuse(ticket: &[u8], tally: &mut [usize; 17]) {
    let all = first_settlement(ticket);
    let settlement = ascii::front(&all, settlement_length(ticket));
    let given = verdicts::values_of(marker::mark(ticket, settlement));
    count(&mut *tally, REFUSED);
    count_if(given.refusal != WITHOUT_HOURS, &mut *tally, DIFFERENT);
    count_if(given.worth != 0, tally, OTHER_WORTH);
}
