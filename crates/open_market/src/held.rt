// What is held.
ghost use Rattle.open_market.specs.Markets.{Settled};

use free_hours::of_side;
use tables::Side;

// A ticket's numbers and those of a sound settlement of it, each with zeros after them; and the free hours that the settlement leaves to
// everybody, 0 beyond the last party.
#[derive(Clone, Copy)]
pub struct Market {
    pub ticket: [u16; 1315],
    pub settlement: [u16; 771],
    pub grower_free_hours: [u16; 16],
    pub pilot_free_hours: [u16; 16],
}

// What is not refused: the ticket, a settlement of it, and the free hours that this leaves.
pub(crate) fn settled(ticket: [u16; 1315]) -> Market
    ensures { Settled ticket result }
{
    let settlement = settler::settle_list(&ticket);
    let grower_free_hours = of_side(&ticket, &settlement, Side::Growers);
    let pilot_free_hours = of_side(&ticket, &settlement, Side::Pilots);
    Market {
        ticket,
        settlement,
        grower_free_hours,
        pilot_free_hours,
    }
}
