// A ticket settled: its sheet, as lines, an object or a table for people; its settlement as a file; or a desk that holds it open.
use crate::files_in::{read_operand, word_at, write_operand};
use crate::refusals::refuse_bytes;
use answer_texts::{SheetObject, Table};
use checks::{Document, Refusal};
use commands::{Asked, Status};
use desk::Closed;
use files::{Told, print};
use printing::Sheet;
use words::Settled;

// A ticket as a list, unless it is refused.
pub(crate) fn unpack_ticket<'a>(
    rt: &HostRuntime,
    asked: Asked,
    ticket: &[u8],
    list: &'a mut [u16],
) -> Result<&'a [u16], Told> {
    match reader::unpack(ticket, list) {
        Ok(count) => Ok(numbers::front(list, count)),
        Err(why) => Err(refuse_bytes(rt, asked, 0, why, Document::Ticket, ticket)),
    }
}

// Writes the settlement of a ticket that was read to a list, and answers how long the settlement and the list are.
fn settle_lists(
    ticket: &[u8],
    terms: &[u16],
    settlement: &mut [u8],
    agreed: &mut [u16],
) -> Result<(usize, usize), Refusal> {
    let length = settler::settle(ticket, settlement)?;
    let growers = tables::growers(terms);
    let pilots = tables::pilots(terms);
    let settled = ascii::front(settlement, length);
    let count = reader::read_settlement(settled, growers, pilots, agreed)?;
    Ok((length, count))
}

fn print_object(
    rt: &HostRuntime,
    settled: Settled,
    ticket: &[u8],
    settlement: &[u8],
) -> Result<(), Told> {
    let count = verdicts::values_of(marker::mark(ticket, settlement)).count;
    print(rt, &SheetObject { settled, count })
}

// The names for the table, none if no file is named.
fn read_names<'a>(rt: &HostRuntime, asked: Asked, text: &'a mut [u8]) -> Result<&'a [u8], Told> {
    match asked.names {
        None => Ok(ascii::front(text, 0)),
        Some(argument) => files::read(rt, word_at(rt, argument).bytes(), text),
    }
}

// The account is that of a sound settlement.
fn print_table(
    rt: &HostRuntime,
    asked: Asked,
    settled: Settled,
    ticket: &[u8],
    settlement: &[u8],
) -> Result<(), Told> {
    let mut text = [0u8; 65536];
    let names = read_names(rt, asked, &mut text)?;
    match accounts::account(ticket, settlement) {
        Ok(account) => {
            let amounts = account.list;
            print(
                rt,
                &Table {
                    names,
                    settled,
                    amounts,
                },
            )
        }
        Err(why) => Err(refuse_bytes(rt, asked, 0, why, Document::Ticket, ticket)),
    }
}

// How a sheet is printed.
#[derive(Clone, Copy, Debug, PartialEq, Eq)]
enum Form {
    Lines,
    Object,
    Table,
}

fn print_as(
    rt: &HostRuntime,
    asked: Asked,
    form: Form,
    ticket: &[u8],
    terms: &[u16],
) -> Result<(), Told> {
    if form == Form::Lines {
        return print(rt, &Sheet { ticket });
    }
    let mut bytes = files::settlement_bytes();
    let mut list = numbers::settlement_list();
    match settle_lists(ticket, terms, &mut bytes, &mut list) {
        Ok((length, count)) => {
            let settlement = ascii::front(&bytes, length);
            let settled = Settled {
                ticket: terms,
                settlement: numbers::front(&list, count),
            };
            if form == Form::Table {
                return print_table(rt, asked, settled, ticket, settlement);
            }
            print_object(rt, settled, ticket, settlement)
        }
        Err(why) => Err(refuse_bytes(rt, asked, 0, why, Document::Ticket, ticket)),
    }
}

// Prints the sheet of a ticket that was read, as lines or as an object.
pub(crate) fn print_sheet(
    rt: &HostRuntime,
    asked: Asked,
    ticket: &[u8],
    terms: &[u16],
) -> Result<(), Told> {
    let form = if asked.json {
        Form::Object
    } else {
        Form::Lines
    };
    print_as(rt, asked, form, ticket, terms)
}

pub(crate) fn sheet(rt: &HostRuntime, asked: Asked) -> Result<Status, Told> {
    let mut file = files::ticket_bytes();
    let ticket = read_operand(rt, asked, 0, &mut file)?;
    let mut list = numbers::ticket_list();
    let terms = unpack_ticket(rt, asked, ticket, &mut list)?;
    if asked.table && !asked.json {
        print_as(rt, asked, Form::Table, ticket, terms)?;
    } else {
        print_sheet(rt, asked, ticket, terms)?;
    }
    Ok(Status::Done)
}

pub(crate) fn settle(rt: &HostRuntime, asked: Asked) -> Result<Status, Told> {
    let mut file = files::ticket_bytes();
    let ticket = read_operand(rt, asked, 0, &mut file)?;
    let mut settlement = files::settlement_bytes();
    match settler::settle(ticket, &mut settlement) {
        Ok(count) => {
            write_operand(rt, asked, 1, ascii::front(&settlement, count))?;
            Ok(Status::Done)
        }
        Err(why) => Err(refuse_bytes(rt, asked, 0, why, Document::Ticket, ticket)),
    }
}

pub(crate) fn desk(rt: &HostRuntime, asked: Asked) -> Result<Status, Told> {
    let mut file = files::ticket_bytes();
    let ticket = read_operand(rt, asked, 0, &mut file)?;
    match desk::serve(rt, ticket) {
        Ok(()) => Ok(Status::Done),
        Err(Closed::Failed) => Err(Told),
        Err(Closed::Refused { why }) => {
            Err(refuse_bytes(rt, asked, 0, why, Document::Ticket, ticket))
        }
    }
}
