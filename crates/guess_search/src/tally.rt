// What is counted of a grid. Where settlements are judged there are four counts, by what was said of them.

// Tickets, and those that are refused.
pub(crate) const TICKETS: usize = 0;

pub(crate) const REFUSED: usize = 1;

// Where the four counts begin: of guesses; of settlements that differ from one in one number; of guesses with a pilot who is not there.
pub(crate) const GUESSES: usize = 2;

pub(crate) const ALTERED: usize = 6;

pub(crate) const WITH_ABSENT_PILOT: usize = 10;

// And which is which of them: certified and sound, or only one of the two, or neither.
pub(crate) const BOTH: usize = 0;

pub(crate) const CERTIFIED_ALONE: usize = 1;

pub(crate) const SOUND_ALONE: usize = 2;

pub(crate) const NEITHER: usize = 3;

// What the settler writes where there is such a pilot.
pub(crate) const SETTLED: usize = 14;

pub(crate) const NOT_SETTLED: usize = 15;
