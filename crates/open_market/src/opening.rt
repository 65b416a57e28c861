// A market opened from a ticket's file.
ghost use Rattle.open_market.specs.Markets.{Opened};

use crate::held::{Market, settled};
use checks::Refusal;

// Opens a market. A ticket that is refused opens none.
pub fn open(file: &[u8]) -> Result<Market, Refusal>
    ensures { Opened file.now result }
{
    let mut ticket = numbers::ticket_list();
    match reader::unpack(file, &mut ticket) {
        Ok(_) => Ok(settled(ticket)),
        Err(why) => Err(why),
    }
}
