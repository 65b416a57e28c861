// The sheet of a ticket: the ticket settled, as text, or its refusal. It is written into a page of its own and then copied to a lent
// buffer, which must have room for the longest sheet that the ticket could have.
#![tactic(auto)]

mod lines;
mod pairs;
mod settled;

ghost use Rattle.std.specs.Prelude.{◌≡◌, ◌≤◌, length, Ok, Err};
ghost use Rattle.grid.specs.Front.{front};
ghost use Rattle.reader.specs.Answer.{unpacked};
ghost use Rattle.sheets.specs.Page.{page_bytes};
ghost use Rattle.sheets.specs.Sheeted.{Sheeted};
ghost use Rattle.sheets.specs.Printing.{SoundFile, Printed};

use checks::Refusal;
use lines::counted;
use settled::{marked_deals, settled_text};

// The bytes of a page: 24, and 32 for each of 256 pairs. It has room for every sheet.
pub const PAGE: usize = 8216;

fn blank() -> [u8; 8216]
    ensures { length result ≡ page_bytes }
{
    [0; PAGE]
}

// Room for every settlement: three bytes, and four for each of 256 pairs.
fn no_bytes() -> [u8; 1027]
    ensures { length result ≡ 1027 }
{
    [0; 1027]
}

// The sheet of a ticket and of the file of a sound settlement of it. The file is always read.
fn print_file(page: &mut [u8; 8216], ticket: &[u8], numbers: &[u16], file: &[u8]) -> usize
    requires { SoundFile ticket.now numbers.now file.now }
    ensures { Printed (Ok numbers.now) page.old page.new result }
{
    let growers = tables::growers(numbers);
    let pilots = tables::pilots(numbers);
    let mut list = numbers::settlement_list();
    let reply = reader::read_settlement(file, growers, pilots, &mut list);
    match reply {
        Err(_) => 0,
        Ok(count) => settled_text(
            page,
            numbers,
            numbers::front(&list, count),
            marked_deals(ticket, file),
        ),
    }
}

// The sheet of a ticket's numbers, which are always settled.
fn print_settled(page: &mut [u8; 8216], ticket: &[u8], numbers: &[u16]) -> usize
    requires { unpacked ticket.now ≡ Ok numbers.now }
    ensures { Printed (Ok numbers.now) page.old page.new result }
{
    let mut settlement = no_bytes();
    let reply = settler::settle(ticket, &mut settlement);
    match reply {
        Err(_) => 0,
        Ok(count) => print_file(page, ticket, numbers, ascii::front(&settlement, count)),
    }
}

// The first bytes of a page, to the front of a buffer.
fn copy(page: &[u8], text: &mut [u8], end: usize)
    requires { (end ≤ length page.now) × (end ≤ length text.old) }
    ensures { text.new ≡ front page.now end text.old }
{
    text[..end].copy_from_slice(&page[..end]);
}

// The sheet of a refusal, into a lent buffer.
fn sheet_refused(why: Refusal, text: &mut [u8]) -> Result<usize, Refusal>
    ensures { Sheeted (Err why) text.old text.new result }
{
    let mut page = blank();
    let number = u8::from(why);
    let end = counted(&mut page, 0, b"REFUSED ", usize::from(number));
    if text.len() < end {
        return Err(Refusal::NoRoom);
    }
    copy(&page, text, end);
    Ok(end)
}

// The sheet of a ticket's numbers, into a lent buffer, which must have room for the longest sheet that the ticket could have.
fn sheet_settled(ticket: &[u8], numbers: &[u16], text: &mut [u8]) -> Result<usize, Refusal>
    requires { unpacked ticket.now ≡ Ok numbers.now }
    ensures { Sheeted (Ok numbers.now) text.old text.new result }
{
    let growers = tables::growers(numbers);
    let pilots = tables::pilots(numbers);
    let pairs = numbers::pairs(growers, pilots);
    if text.len() < 24 + 32 * pairs {
        return Err(Refusal::NoRoom);
    }
    let mut page = blank();
    let end = print_settled(&mut page, ticket, numbers);
    copy(&page, text, end);
    Ok(end)
}

// Writes the sheet of a ticket's bytes at the front of a lent buffer, and returns its length in bytes.
pub fn sheet(ticket: &[u8], text: &mut [u8]) -> Result<usize, Refusal>
    ensures { Sheeted (unpacked ticket.now) text.old text.new result }
{
    let mut numbers = numbers::ticket_list();
    let reply = reader::unpack(ticket, &mut numbers);
    match reply {
        Err(why) => sheet_refused(why, text),
        Ok(count) => sheet_settled(ticket, numbers::front(&numbers, count), text),
    }
}
