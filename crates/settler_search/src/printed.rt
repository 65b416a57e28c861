// What was found in a grid.
use super::tally::{
    MARKER_ALONE, ONLY_FREE, OTHER, OTHER_WORTH, OTHERWISE, OURS, PLAIN_ALONE, REFUSED, SOUND,
    TICKETS, UNSOUND, WORTH_SOMETHING, WRONG,
};
use plain::Most;
use std::fmt;

// A grid: how many parties there are, and the least and the most that their numbers are.
#[derive(Clone, Copy)]
pub(crate) struct Grid {
    pub(crate) growers: u8,
    pub(crate) pilots: u8,
    pub(crate) least_hours: u8,
    pub(crate) most: Most,
}

impl fmt::Display for Grid {
    fn fmt<W: fmt::Write>(&self, f: &mut fmt::Formatter<W>) -> fmt::Result {
        let most = self.most;
        write!(
            f,
            "{} by {}, hours {} to {}",
            self.growers, self.pilots, self.least_hours, most.hours
        )?;
        if most.tariff_cap == most.free_cap {
            write!(f, ", caps to {}", most.free_cap)?;
        } else {
            write!(
                f,
                ", tariff caps to {}, free caps to {}",
                most.tariff_cap, most.free_cap
            )?;
        }
        writeln!(f, ", amounts to {}", most.amount)
    }
}

// What came of the tickets of a grid: how often each of it.
#[derive(Clone, Copy)]
pub(crate) struct Tickets {
    pub(crate) counts: [usize; 17],
}

impl fmt::Display for Tickets {
    fn fmt<W: fmt::Write>(&self, f: &mut fmt::Formatter<W>) -> fmt::Result {
        let counts = &self.counts;
        writeln!(f, "  {} tickets", counts[TICKETS])?;
        writeln!(f, "  {} settled soundly", counts[SOUND])?;
        writeln!(f, "  {} by the marker alone", counts[MARKER_ALONE])?;
        writeln!(f, "  {} by the plain search alone", counts[PLAIN_ALONE])?;
        writeln!(f, "  {} by neither", counts[UNSOUND])?;
        writeln!(
            f,
            "  {} refused with 18, by the plain check too",
            counts[REFUSED]
        )?;
        writeln!(
            f,
            "  {} by one of the two alone, or with another number",
            counts[OTHERWISE]
        )?;
        writeln!(
            f,
            "  {} settled without tariff deals, their worths compared with the greatest, of which",
            counts[ONLY_FREE]
        )?;
        writeln!(f, "  {} above 0", counts[WORTH_SOMETHING])?;
        writeln!(f, "  {} given another worth", counts[OTHER_WORTH])
    }
}

// What came of their settlements.
#[derive(Clone, Copy)]
pub(crate) struct Settlements {
    pub(crate) counts: [usize; 17],
}

impl fmt::Display for Settlements {
    fn fmt<W: fmt::Write>(&self, f: &mut fmt::Formatter<W>) -> fmt::Result {
        let counts = &self.counts;
        writeln!(f, "  {} of them met in the search", counts[OURS])?;
        writeln!(f, "  {} other sound settlements", counts[OTHER])?;
        writeln!(f, "  {} unsound ones", counts[WRONG])
    }
}
