// What was found in a grid.
use super::tally::{
    ACCEPTED, AGAINST_LIMITS, CHANGED, COMPARED, CUT, MARKED_SOUND, NO_PARTY, NUMBERS_LEFT,
    OTHER_ANSWER, OTHER_FREE_HOURS, OTHER_REPLAY, OTHER_TICKET, REFUSED, REPLAYED, SOUND, TICKETS,
    UNSOUND,
};
use report::{line, text};

fn calls(counts: [usize; 17]) {
    line(counts[TICKETS], b"tickets, of which");
    line(counts[REFUSED], b"refused with 18, by the plain check too");
    text(b"lists of calls on the others, by their last call\n");
    line(counts[ACCEPTED], b"accepted");
    line(counts[NO_PARTY], b"refused with 19, no such party");
    line(
        counts[AGAINST_LIMITS],
        b"refused with 20, against the limits",
    );
}

fn differences(counts: [usize; 17]) {
    line(
        counts[OTHER_ANSWER],
        b"answered otherwise than by the paper",
    );
    line(
        counts[OTHER_TICKET],
        b"with another ticket held than by the paper",
    );
    line(counts[CHANGED], b"refused, with a market that changed");
}

fn settlements(counts: [usize; 17]) {
    text(b"settlements held\n");
    line(counts[SOUND], b"sound, by the marker and the plain search");
    line(
        counts[MARKED_SOUND],
        b"sound by the marker, with amounts above those of the plain search",
    );
    line(counts[UNSOUND], b"not sound");
    line(counts[NUMBERS_LEFT], b"with numbers after their end");
}

fn free_hours(counts: [usize; 17]) {
    text(b"free hours held\n");
    line(
        counts[COMPARED],
        b"compared with sums over the deals of the settlement",
    );
    line(counts[OTHER_FREE_HOURS], b"with another figure");
}

fn replays(counts: [usize; 17]) {
    text(b"lists replayed\n");
    line(counts[REPLAYED], b"whole");
    line(counts[CUT], b"with their last call cut short");
    line(
        counts[OTHER_REPLAY],
        b"that ended in another market, or with another answer",
    );
}

pub(crate) fn tally(grid: &[u8], counts: [usize; 17]) {
    text(grid);
    calls(counts);
    differences(counts);
    settlements(counts);
    free_hours(counts);
    replays(counts);
}
