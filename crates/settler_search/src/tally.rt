// What is counted of a grid: tickets, by what was said of them and of their settlements.

// Refused with 18, and by the plain check too.
pub(crate) const REFUSED: usize = 0;

pub(crate) const UNSOUND: usize = 1;

pub(crate) const MARKER_ALONE: usize = 2;

pub(crate) const PLAIN_ALONE: usize = 3;

pub(crate) const SOUND: usize = 4;

// All of them.
pub(crate) const TICKETS: usize = 5;

// Of the settlements within a ticket's limits: the one that was settled, if it is sound, other sound ones, and unsound ones.
pub(crate) const OURS: usize = 6;

pub(crate) const OTHER: usize = 7;

pub(crate) const WRONG: usize = 8;

// Tickets that are refused with another number, or by the settler or the plain check alone.
pub(crate) const OTHERWISE: usize = 9;

// Tickets without tariff deals, those of them that are worth something, and those settled with another worth than the greatest.
pub(crate) const ONLY_FREE: usize = 10;

pub(crate) const WORTH_SOMETHING: usize = 11;

pub(crate) const OTHER_WORTH: usize = 12;
