// A new ticket from a ticket and everybody's windows: its caps fit the hours that growers and pilots have in common.
#![tactic(auto)]

mod pairs;
mod terms;

ghost use Rattle.std.specs.Prelude.{◌≡◌, length};
ghost use Rattle.reader.specs.Answer.{Tells, kept};
ghost use Rattle.windows.specs.Narrowed.{new_ticket_of};
ghost use Rattle.windows.specs.Held.{Holds, outcome_of};

use checks::Refusal;
use numbers::entry;
use pairs::narrow_pairs;

// Narrows a ticket's numbers, which stand in front of a list, and writes the new ticket to the front of a lent buffer.
fn narrow_numbers(
    ticket: [u16; 1315],
    windows: &[u16],
    new_ticket: &mut [u8],
) -> Result<usize, Refusal>
    requires { Holds ticket }
    ensures tells { Tells result (length new_ticket.old) (outcome_of windows.now ticket) }
    ensures new_ticket_after { new_ticket.new ≡ kept new_ticket.old (outcome_of windows.now ticket) }
{
    let mut list = ticket;
    window_lists::refusal(windows, entry(&list, 1), entry(&list, 2))?;
    narrow_pairs(&mut list, windows);
    reader::pack(tables::ticket_front(&list), new_ticket)
}

// Writes the ticket that windows make of a ticket to the front of a lent buffer, and returns its length in bytes.
pub fn narrow(ticket: &[u8], windows: &[u16], new_ticket: &mut [u8]) -> Result<usize, Refusal>
    ensures tells { Tells result (length new_ticket.old) (new_ticket_of ticket.now windows.now) }
    ensures new_ticket_after { new_ticket.new ≡ kept new_ticket.old (new_ticket_of ticket.now windows.now) }
{
    let mut list = numbers::ticket_list();
    reader::unpack(ticket, &mut list)?;
    narrow_numbers(list, windows, new_ticket)
}
