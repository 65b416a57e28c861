// What was found in a grid.
ghost use Rattle.std.specs.Prelude.{◌<◌};

use super::tally::{
    ALTERED, BOTH, CERTIFIED_ALONE, GUESSES, NEITHER, NOT_SETTLED, REFUSED, SETTLED, SOUND_ALONE,
    TICKETS, WITH_ABSENT_PILOT,
};
use report::{line, text};

// The four counts from a place on.
fn four(counts: [usize; 17], from: usize)
    requires { from < 13 }
{
    line(
        counts[from + BOTH],
        b"are certified, and sound by the plain search",
    );
    line(
        counts[from + CERTIFIED_ALONE],
        b"are certified, though not sound",
    );
    line(
        counts[from + SOUND_ALONE],
        b"are not certified, though sound",
    );
    line(counts[from + NEITHER], b"are neither");
}

fn tickets(counts: [usize; 17]) {
    line(counts[TICKETS], b"tickets, of which");
    line(
        counts[REFUSED],
        b"refused: a cap above 0 where the grower or the pilot has no hours",
    );
}

fn settled(counts: [usize; 17]) {
    line(counts[SETTLED], b"are sound by the plain search");
    line(counts[NOT_SETTLED], b"are not");
}

pub(crate) fn tally(grid: &[u8], counts: [usize; 17]) {
    text(grid);
    tickets(counts);
    text(b"of the guesses for the others\n");
    four(counts, GUESSES);
    text(b"of all settlements that differ from a guess in one number by one\n");
    four(counts, ALTERED);
    text(b"of the guesses where the squares hold a second pilot and the market has one\n");
    four(counts, WITH_ABSENT_PILOT);
    text(b"of the settlements that the settler writes there\n");
    settled(counts);
}
