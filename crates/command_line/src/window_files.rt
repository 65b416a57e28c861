// A new ticket for everybody's windows, which are a text of numbers.
use crate::files_in::{operand_at, read_operand, write_operand};
use crate::lines::line_of;
use crate::packing::{NO_ROOM, OnLine, listed_numbers, read_text, refuse_operand};
use crate::refusals::{refuse, refuse_bytes};
use checks::{Document, Refusal};
use commands::{Asked, Status};
use files::{About, Told, message};
use lists::ListError;
use numbers::front;
use std::fmt;

// A party has at most so many windows.
const MOST: u16 = 8;

// Where a list of windows is at fault: whose, which of his windows, unless it is their number, and the place of the number.
#[derive(Clone, Copy, Debug, PartialEq, Eq)]
struct Fault {
    party: usize,
    window: Option<usize>,
    place: usize,
}

// A window that is empty, past the week's end, or begins before the one before it has closed.
fn is_bad(first: u16, closing: u16, closed: u16) -> bool {
    closing <= first || 168 < closing || first < closed
}

// The place of the first of the last numbers of a list.
fn place_of(list: &[u16], last: &[u16]) -> usize {
    list.len().saturating_sub(last.len())
}

// What stands in a list after the windows of a party, of what stands from them on.
fn after_party<'a>(list: &[u16], party: usize, rest: &'a [u16]) -> Result<&'a [u16], Fault> {
    let missing = Fault {
        party,
        window: None,
        place: list.len(),
    };
    let (&count, hours) = rest.split_first().ok_or(missing)?;
    if MOST < count {
        return Err(Fault {
            party,
            window: None,
            place: place_of(list, rest),
        });
    }
    let (windows, after) = hours
        .split_at_checked(2 * usize::from(count))
        .ok_or(missing)?;
    let mut closed = 0;
    for (k, window) in windows.chunks_exact(2).enumerate() {
        if let &[first, closing] = window {
            if is_bad(first, closing, closed) {
                return Err(Fault {
                    party,
                    window: Some(k),
                    place: place_of(list, hours).saturating_add(k.saturating_mul(2)),
                });
            }
            closed = closing;
        }
    }
    Ok(after)
}

// The first fault of a list of windows; else the place of the first number that is left.
fn places_of(list: &[u16], parties: usize) -> Result<usize, Fault> {
    let mut rest = list;
    for party in 0..parties {
        rest = after_party(list, party, rest)?;
    }
    Ok(place_of(list, rest))
}

// Where the windows of so many growers and pilots are refused: at which number, whose it is, and on which line it stands.
#[derive(Clone, Copy)]
struct Place {
    found: Result<usize, Fault>,
    growers: usize,
    line: usize,
}

// The number that is refused.
fn number_of(found: Result<usize, Fault>) -> usize {
    match found {
        Ok(place) => place,
        Err(fault) => fault.place,
    }
}

impl fmt::Display for Place {
    fn fmt<W: fmt::Write>(&self, f: &mut fmt::Formatter<W>) -> fmt::Result {
        write!(f, "at number {} (", number_of(self.found))?;
        match self.found {
            Ok(_) => f.write_str("after the last party")?,
            Err(fault) => {
                if fault.party < self.growers {
                    write!(f, "grower {}", fault.party)?;
                } else {
                    write!(f, "pilot {}", fault.party.saturating_sub(self.growers))?;
                }
                match fault.window {
                    Some(window) => write!(f, ", window {window}")?,
                    None => f.write_str(", windows")?,
                }
            }
        }
        write!(f, "), line {}", self.line)
    }
}

// Windows that are refused.
fn refuse_windows(
    rt: &HostRuntime,
    asked: Asked,
    why: Refusal,
    ticket: &[u8],
    text: &[u8],
    list: &[u16],
) -> Told {
    let word = operand_at(rt, asked, 1);
    let name = word.bytes();
    let told = refuse(rt, name, why);
    let mut terms = numbers::ticket_list();
    if let Ok(count) = reader::unpack(ticket, &mut terms) {
        let passed = front(&terms, count);
        let growers = tables::growers(passed);
        let found = places_of(list, growers + tables::pilots(passed));
        let line = line_of(text, number_of(found));
        let text = Place {
            found,
            growers,
            line,
        };
        message(rt, &About { name, text });
    }
    told
}

// Why a text is no list of numbers.
fn refuse_as_list(rt: &HostRuntime, asked: Asked, error: ListError) -> Told {
    match error {
        ListError::Wrong { line } => {
            let words = "not a number up to 65535";
            refuse_operand(rt, asked, 1, OnLine { line, words })
        }
        ListError::NoRoom => refuse_operand(rt, asked, 1, NO_ROOM),
    }
}

// Writes the ticket that a list of windows makes of a ticket to the file that is the third operand.
pub(crate) fn windows(rt: &HostRuntime, asked: Asked) -> Result<Status, Told> {
    let mut file = files::ticket_bytes();
    let ticket = read_operand(rt, asked, 0, &mut file)?;
    let mut buffer = [0u8; 65536];
    let text = read_text(rt, asked, 1, &mut buffer)?;
    let mut numbers = listed_numbers();
    let list = match lists::read_numbers(text, &mut numbers) {
        Ok(count) => front(&numbers, count),
        Err(error) => return Err(refuse_as_list(rt, asked, error)),
    };
    let mut new_ticket = files::ticket_bytes();
    match windows::narrow(ticket, list, &mut new_ticket) {
        Ok(count) => {
            write_operand(rt, asked, 2, ascii::front(&new_ticket, count))?;
            Ok(Status::Done)
        }
        Err(why) if words::is_of_ticket(why) => {
            Err(refuse_bytes(rt, asked, 0, why, Document::Ticket, ticket))
        }
        Err(why) => Err(refuse_windows(rt, asked, why, ticket, text, list)),
    }
}
