// A ticket settled, for people: a line for each pair that flies, then one for each party, with headings and totals.
use crate::names::{Left, Party, column};
use crate::sheet::flight_of;
use files::Text;
use std::fmt;
use std::io::{Result, Write};
use tables::Side;
use words::Settled;

// The whole table, by names for the parties, and the amounts of the account.
#[derive(Clone, Copy)]
pub struct Table<'a> {
    pub names: &'a [u8],
    pub settled: Settled<'a>,
    pub amounts: [u32; 48],
}

// How wide the columns of growers and pilots are, with the blanks after them.
#[derive(Clone, Copy)]
struct Columns {
    growers: usize,
    pilots: usize,
    parties: usize,
}

// The widest column, apart from the blanks after it.
const WIDEST: usize = 4096;

fn with_blanks(column: usize, blanks: usize) -> usize {
    if column <= WIDEST {
        column.saturating_add(blanks)
    } else {
        WIDEST
    }
}

// Hours flown, own hours and euros.
#[derive(Clone, Copy)]
struct Figures {
    flown: u64,
    own: u64,
    euros: u64,
}

impl Figures {
    fn none() -> Figures {
        Figures {
            flown: 0,
            own: 0,
            euros: 0,
        }
    }

    fn and(self, more: Figures) -> Figures {
        Figures {
            flown: self.flown.saturating_add(more.flown),
            own: self.own.saturating_add(more.own),
            euros: self.euros.saturating_add(more.euros),
        }
    }
}

impl fmt::Display for Figures {
    fn fmt<W: fmt::Write>(&self, f: &mut fmt::Formatter<W>) -> fmt::Result {
        writeln!(f, "{:>11}{:>11}{:>8}", self.flown, self.own, self.euros)
    }
}

// What the lines of a side begin with.
fn word_of(side: Side) -> &'static [u8] {
    match side {
        Side::Growers => b"grower ",
        Side::Pilots => b"pilot  ",
    }
}

impl<'a> Table<'a> {
    fn columns(&self) -> Columns {
        let growers = usize::from(self.settled.parties(Side::Growers));
        let all = growers.saturating_add(usize::from(self.settled.parties(Side::Pilots)));
        Columns {
            growers: with_blanks(column(self.names, 0, growers, 6), 2),
            pilots: with_blanks(column(self.names, growers, all, 6), 2),
            parties: with_blanks(column(self.names, 0, all, 4), 9),
        }
    }

    // Somebody in a column. In the names pilots come after all growers.
    fn party(&self, side: Side, who: u16, column: usize) -> Party<'a> {
        let before = match side {
            Side::Growers => 0,
            Side::Pilots => usize::from(self.settled.parties(Side::Growers)),
        };
        Party {
            names: self.names,
            line: before.saturating_add(usize::from(who)),
            number: who,
            column,
        }
    }

    // What somebody gains or earns. Of a pilot the account has two amounts, after those of all growers.
    fn euros(&self, side: Side, who: u16) -> u64 {
        let k = usize::from(who);
        let place = match side {
            Side::Growers => k,
            Side::Pilots => usize::from(self.settled.parties(Side::Growers)).saturating_add(2 * k),
        };
        u64::from(self.amounts.get(place).copied().unwrap_or(0))
    }

    fn figures(&self, side: Side, who: u16) -> Figures {
        Figures {
            flown: u64::from(words::flown(self.settled, side, usize::from(who))),
            own: u64::from(self.settled.own_hours(side, who)),
            euros: self.euros(side, who),
        }
    }

    // A line for each pair that flies. By the numbers of the two: a pair is looked up in both lists, and a party without a name is a number.
    fn write_pairs<W: Write>(&self, columns: Columns, out: &mut W) -> Result<()> {
        for i in 0..self.settled.parties(Side::Growers) {
            for j in 0..self.settled.parties(Side::Pilots) {
                if let Some(flight) = flight_of(self.settled, i, j) {
                    self.party(Side::Growers, i, columns.growers).write(out)?;
                    self.party(Side::Pilots, j, columns.pilots).write(out)?;
                    writeln!(
                        out,
                        "{:>12}{:>6}{:>5}{:>17}{:>16}{:>15}",
                        flight.tariff_hours,
                        flight.tariff_gain,
                        flight.tariff_pay,
                        flight.free_deal_hours,
                        flight.grower_share,
                        flight.pilot_share
                    )?;
                }
            }
        }
        Ok(())
    }

    // A line for each party of a side, with the hours he flies, those he has and his euros. Answers what they have together.
    fn write_side<W: Write>(&self, side: Side, column: usize, out: &mut W) -> Result<Figures> {
        let mut total = Figures::none();
        for who in 0..self.settled.parties(side) {
            let figures = self.figures(side, who);
            out.write_all(word_of(side))?;
            self.party(side, who, column.saturating_sub(7)).write(out)?;
            figures.write(out)?;
            total = total.and(figures);
        }
        Ok(total)
    }
}

impl<'a> Text for Table<'a> {
    fn write<W: Write>(&self, out: &mut W) -> Result<()> {
        let columns = self.columns();
        let left = |words, column| Left { words, column };
        left(b"grower".as_slice(), columns.growers).write(out)?;
        left(b"pilot".as_slice(), columns.pilots).write(out)?;
        out.write_all(
            b"tariff hours  gain  pay  free-deal hours  grower's share  pilot's share\n",
        )?;
        self.write_pairs(columns, out)?;
        out.write_all(b"\n")?;
        left(b"party".as_slice(), columns.parties).write(out)?;
        out.write_all(b"hours flown  own hours   euros\n")?;
        let of_growers = self.write_side(Side::Growers, columns.parties, out)?;
        let of_pilots = self.write_side(Side::Pilots, columns.parties, out)?;
        left(b"all growers".as_slice(), columns.parties).write(out)?;
        of_growers.write(out)?;
        left(b"all pilots".as_slice(), columns.parties).write(out)?;
        of_pilots.write(out)
    }
}
