// A settlement of a ticket, both as lists that have been read.
use numbers::entry;
use tables::{Quantity, Side};

#[derive(Clone, Copy)]
pub struct Settled<'a> {
    pub ticket: &'a [u16],
    pub settlement: &'a [u16],
}

impl<'a> Settled<'a> {
    // How many there are on a side.
    pub fn parties(&self, side: Side) -> u16 {
        match side {
            Side::Growers => entry(self.ticket, 1),
            Side::Pilots => entry(self.ticket, 2),
        }
    }

    // The hours that somebody has.
    pub fn own_hours(&self, side: Side, who: u16) -> u16 {
        entry(self.ticket, tables::hours_place(self.ticket, side, who))
    }

    // A number of a pair, in the ticket and in the settlement.
    pub fn term(&self, quantity: Quantity, i: u16, j: u16) -> u16 {
        entry(self.ticket, tables::place(self.ticket, quantity, i, j))
    }

    pub fn agreed(&self, quantity: Quantity, i: u16, j: u16) -> u16 {
        entry(
            self.settlement,
            tables::place(self.settlement, quantity, i, j),
        )
    }
}
