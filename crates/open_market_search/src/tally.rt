// What is counted of a grid.

// Tickets, and those that are refused with 18.
pub(crate) const TICKETS: usize = 0;

pub(crate) const REFUSED: usize = 1;

// Lists of calls, by what the last call was answered. A list that is no call is among those refused with 20.
pub(crate) const ACCEPTED: usize = 2;

pub(crate) const NO_PARTY: usize = 3;

pub(crate) const AGAINST_LIMITS: usize = 4;

// Settlements held, by what was said of them: sound, by the marker and by the plain search; sound by the marker, with amounts that the
// plain search has no room for; not sound by one of them.
pub(crate) const SOUND: usize = 5;

pub(crate) const MARKED_SOUND: usize = 6;

pub(crate) const UNSOUND: usize = 7;

// Lists given to `replay` whole, and cut short.
pub(crate) const REPLAYED: usize = 8;

pub(crate) const CUT: usize = 9;

// Markets whose free hours were compared with sums over the deals.
pub(crate) const COMPARED: usize = 10;

// What must not be: another answer than by the paper, another ticket held, something after the numbers of the settlement, a refused call
// that changes the market, another answer or market of `replay`, other free hours.
pub(crate) const OTHER_ANSWER: usize = 11;

pub(crate) const OTHER_TICKET: usize = 12;

pub(crate) const NUMBERS_LEFT: usize = 13;

pub(crate) const CHANGED: usize = 14;

pub(crate) const OTHER_REPLAY: usize = 15;

pub(crate) const OTHER_FREE_HOURS: usize = 16;
