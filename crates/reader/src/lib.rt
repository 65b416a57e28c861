// The reader: the bytes of a ticket or a settlement, and its list of numbers, each turned into the other.
// Every operation answers on every input. A refusal changes nothing that was lent; a success changes only the front of it.
#![tactic(auto)]

ghost use Rattle.std.specs.Prelude.{◌≡◌, length};
ghost use Rattle.reader.specs.Answer.{unpacked, packed, settlement_read, settlement_packed, Tells, kept};

mod copy; // copy.rt: the passes that write, after a scan that refused nothing

use checks::Document;
use copy::{deliver, receive};

// Why an operation is refused. One that is done answers how many numbers or bytes it wrote.
pub use checks::Refusal;

// Turns a ticket's bytes into its list of numbers, and returns their count.
pub fn unpack(ticket: &[u8], list: &mut [u16]) -> Result<usize, Refusal>
    ensures tells { Tells result (length list.old) (unpacked ticket.now) }
    ensures list_after { list.new ≡ kept list.old (unpacked ticket.now) }
{
    receive(Document::Ticket, ticket, list)
}

// Turns a list of numbers into a ticket's bytes, and returns their count.
pub fn pack(list: &[u16], ticket: &mut [u8]) -> Result<usize, Refusal>
    ensures tells { Tells result (length ticket.old) (packed list.now) }
    ensures ticket_after { ticket.new ≡ kept ticket.old (packed list.now) }
{
    deliver(Document::Ticket, list, ticket)
}

// Turns the bytes of a settlement into its list of numbers. The settlement is that of a ticket with so many growers and pilots.
pub fn read_settlement(
    settlement: &[u8],
    growers: usize,
    pilots: usize,
    list: &mut [u16],
) -> Result<usize, Refusal>
    ensures tells { Tells result (length list.old) (settlement_read growers pilots settlement.now) }
    ensures list_after { list.new ≡ kept list.old (settlement_read growers pilots settlement.now) }
{
    receive(Document::Settlement { growers, pilots }, settlement, list)
}

// Turns a list of numbers into the bytes of a settlement, and returns their count.
pub fn write_settlement(
    list: &[u16],
    growers: usize,
    pilots: usize,
    settlement: &mut [u8],
) -> Result<usize, Refusal>
    ensures tells { Tells result (length settlement.old) (settlement_packed growers pilots list.now) }
    ensures settlement_after { settlement.new ≡ kept settlement.old (settlement_packed growers pilots list.now) }
{
    deliver(Document::Settlement { growers, pilots }, list, settlement)
}
