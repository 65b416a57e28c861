// What is searched, and what was found in a grid.
use super::compare::{
    COMPARED, DIFFERENT, ONLY_FREE, OTHER_WORTH, PROMISED, REFUSED, TICKETS, WITHIN,
    WORTH_SOMETHING,
};
use std::fmt;

pub(crate) const SEARCHED: &str =
    "tickets: all hours 0 to 3, all caps 0 to 2, all amounts 0 to 1, but 0 in a deal of cap 0;
  of two growers and two pilots all hours 0 to 2, tariff caps 0, free caps 0 to 1, amounts 0 to 2
settlements of each that is not refused: all with hours 0 to their cap and pay 0 to c;
  and each of the numbers one above its limit, alone and with all that follow, the others at theirs
worth of a sound settlement without tariff deals: the greatest of all feasible settlements; of all else 0";

// What was found in a grid: how often each of it.
#[derive(Clone, Copy)]
pub(crate) struct Tally<'a> {
    pub(crate) grid: &'a str,
    pub(crate) counts: [usize; 17],
}

impl<'a> fmt::Display for Tally<'a> {
    fn fmt<W: fmt::Write>(&self, f: &mut fmt::Formatter<W>) -> fmt::Result {
        let counts = &self.counts;
        writeln!(f, "{}", self.grid)?;
        writeln!(f, "  {} tickets, of which", counts[TICKETS])?;
        writeln!(
            f,
            "  {} refused with 18: a cap above 0 where the grower or the pilot has no hours",
            counts[REFUSED]
        )?;
        writeln!(
            f,
            "  {} not refused, and without tariff deals",
            counts[ONLY_FREE]
        )?;
        writeln!(f, "  {} settlements within their limits", counts[WITHIN])?;
        writeln!(f, "  {} settlements compared, of which", counts[COMPARED])?;
        writeln!(f, "  {} sound", counts[1])?;
        writeln!(f, "  {} tariff hours over their cap", counts[2])?;
        writeln!(f, "  {} free hours over their cap", counts[3])?;
        writeln!(f, "  {} pay wrong", counts[4])?;
        writeln!(f, "  {} grower over his hours", counts[5])?;
        writeln!(f, "  {} pilot over his hours", counts[6])?;
        writeln!(f, "  {} idle", counts[7])?;
        writeln!(f, "  {} blocks", counts[8])?;
        writeln!(
            f,
            "  {} sound ones without tariff deals, their worths compared with the greatest, of which",
            counts[PROMISED]
        )?;
        writeln!(f, "  {} above 0", counts[WORTH_SOMETHING])?;
        writeln!(
            f,
            "  {} answered otherwise by the marker",
            counts[DIFFERENT]
        )?;
        writeln!(f, "  {} given another worth", counts[OTHER_WORTH])
    }
}
