// Opening a market into a list, and calls on it there.
ghost use Rattle.market_lists.specs.Lent.{OpenedIn, CalledIn, WrittenFrom};

use crate::MARKET;
use crate::copying::{GROWERS, SETTLEMENT, held, hold};
use checks::Refusal;

// Opens a market from a ticket's file, and writes its numbers to the front of a list. A list that is too short is the last refusal.
pub fn open(file: &[u8], list: &mut [u16]) -> Result<usize, Refusal>
    ensures { OpenedIn file.now list.old list.new result }
{
    let market = open_market::open(file)?;
    if list.len() < MARKET {
        return Err(Refusal::NoRoom);
    }
    hold(market, list);
    Ok(MARKET)
}

// Does a list of calls on the market that stands at the front of a list. The answer is the first refusal among them; the calls after it
// are done.
pub fn call(list: &mut [u16], calls: &[u16]) -> Result<usize, Refusal>
    ensures { CalledIn calls.now list.old list.new result }
{
    if list.len() < MARKET {
        return Err(Refusal::NoRoom);
    }
    let (refusal, market) = open_market::replay(held(&*list), calls);
    hold(market, list);
    refusal?;
    Ok(MARKET)
}

// Writes the file of the settlement that the market at the front of a list holds.
pub fn write_settlement(list: &[u16], file: &mut [u8]) -> Result<usize, Refusal>
    ensures { WrittenFrom list.now file.old file.new result }
{
    if list.len() < MARKET {
        return Err(Refusal::NoRoom);
    }
    let settlement = &list[SETTLEMENT..GROWERS];
    reader::write_settlement(
        tables::settlement_front(settlement),
        tables::growers(settlement),
        tables::pilots(settlement),
        file,
    )
}
