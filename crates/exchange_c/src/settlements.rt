// Settlements by the growers and pilots that C names.
ghost use Rattle.std.specs.Prelude.{◌≡◌, length};
ghost use Rattle.checks.specs.Refusals.{must};
ghost use Rattle.reader.specs.Answer.{settlement_read, settlement_packed, reply, kept};
ghost use Rattle.exchange_c.specs.Settlements.{in_ticket, of_ticket};

use checks::{Refusal, must};
use numbers::SIDE;

// A ticket may have so many; otherwise they are unlike those of every ticket.
fn of_ticket(growers: usize, pilots: usize) -> Result<(), Refusal>
    ensures { result ≡ must (in_ticket growers pilots) Refusal.OtherParties }
{
    must(growers <= SIDE && pilots <= SIDE, Refusal::OtherParties)
}

pub(crate) fn read(
    settlement: &[u8],
    growers: usize,
    pilots: usize,
    list: &mut [u16],
) -> Result<usize, Refusal>
    ensures value { result ≡ reply (length list.old) (of_ticket growers pilots (settlement_read growers pilots settlement.now)) }
    ensures list_after { list.new ≡ kept list.old (of_ticket growers pilots (settlement_read growers pilots settlement.now)) }
{
    of_ticket(growers, pilots)?;
    reader::read_settlement(settlement, growers, pilots, list)
}

pub(crate) fn write(
    list: &[u16],
    growers: usize,
    pilots: usize,
    settlement: &mut [u8],
) -> Result<usize, Refusal>
    ensures value { result ≡ reply (length settlement.old) (of_ticket growers pilots (settlement_packed growers pilots list.now)) }
    ensures settlement_after { settlement.new ≡ kept settlement.old (of_ticket growers pilots (settlement_packed growers pilots list.now)) }
{
    of_ticket(growers, pilots)?;
    reader::write_settlement(list, growers, pilots, settlement)
}
