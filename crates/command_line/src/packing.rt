// Documents as text, and texts as documents: a ticket or a settlement. A settlement is read for the growers and pilots that it names.
use crate::files_in::{byte_at, operand_at, read_operand, write_operand};
use crate::refusals::{refuse_bytes, refuse_text};
use answer_texts::DocumentObject;
use checks::{Document, Refusal};
use commands::{Asked, Status};
use files::{About, Text, Told, message, print};
use layouts::{Layout, TextError};
use numbers::entry;

// As many numbers as a text of 65,535 bytes can list, so that a list that is too long is refused as one that has numbers left.
pub(crate) fn listed_numbers() -> [u16; 32768] {
    [0; 32768]
}

// A number of parties that a settlement can be read for. One that it can not have is then refused as another than asked.
fn parties(count: usize) -> usize {
    numbers::within(count).max(1)
}

// A settlement that names so many growers and pilots.
fn settlement_of(growers: usize, pilots: usize) -> Document {
    Document::Settlement {
        growers: parties(growers),
        pilots: parties(pilots),
    }
}

// Which document a file is to be, by the kind and the growers and pilots that it begins with.
fn document_of(file: &[u8]) -> Document {
    if byte_at(file, 0) == 2 {
        return settlement_of(usize::from(byte_at(file, 1)), usize::from(byte_at(file, 2)));
    }
    Document::Ticket
}

fn read_document(document: Document, file: &[u8], list: &mut [u16]) -> Result<usize, Refusal> {
    match document {
        Document::Ticket => reader::unpack(file, list),
        Document::Settlement { growers, pilots } => reader::read_settlement(
            file, growers, pilots, list,
        ),
    }
}

fn write_document(document: Document, list: &[u16], file: &mut [u8]) -> Result<usize, Refusal> {
    match document {
        Document::Ticket => reader::pack(list, file),
        Document::Settlement { growers, pilots } => reader::write_settlement(
            list, growers, pilots, file,
        ),
    }
}

fn layout_of(list: &[u16]) -> Layout {
    if entry(list, 0) == 2 {
        Layout::Settlement
    } else {
        Layout::Ticket
    }
}

pub(crate) fn unpack(rt: &HostRuntime, asked: Asked) -> Result<Status, Told> {
    let mut bytes = files::ticket_bytes();
    let file = read_operand(rt, asked, 0, &mut bytes)?;
    let document = document_of(file);
    let mut numbers = numbers::ticket_list();
    let list = match read_document(document, file, &mut numbers) {
        Ok(count) => numbers::front(&numbers, count),
        Err(why) => return Err(refuse_bytes(rt, asked, 0, why, document, file)),
    };
    if asked.json {
        print(rt, &DocumentObject { list })?;
    } else {
        let layout = layout_of(list);
        print(rt, &printing::Document { layout, list })?;
    }
    Ok(Status::Done)
}

// What is wrong with the text that is an operand.
pub(crate) fn refuse_operand(
    rt: &HostRuntime,
    asked: Asked,
    place: usize,
    text: impl Text + Drop,
) -> Told {
    let word = operand_at(rt, asked, place);
    let name = word.bytes();
    message(rt, &About { name, text });
    Told
}

// What a text of more bytes or numbers than can be read is told.
pub(crate) const TOO_LONG: &str = "more than 65535 bytes";

pub(crate) const NO_ROOM: &str = "more than 32768 numbers";

// What is wrong with a line.
#[derive(Clone, Copy)]
pub(crate) struct OnLine {
    pub(crate) line: usize,
    pub(crate) words: &'static str,
}

impl std::fmt::Display for OnLine {
    fn fmt<W: std::fmt::Write>(&self, f: &mut std::fmt::Formatter<W>) -> std::fmt::Result {
        write!(f, "line {}: {}", self.line, self.words)
    }
}

fn document_in(layout: Layout, list: &[u16]) -> Document {
    match layout {
        Layout::Ticket => Document::Ticket,
        Layout::Settlement => settlement_of(
            usize::from(entry(list, 1)),
            usize::from(entry(list, 2)),
        ),
    }
}

// Why a text is none of a document.
fn refuse_as_text(rt: &HostRuntime, asked: Asked, error: TextError) -> Told {
    match error {
        TextError::Wrong { line } => {
            let words = "not as unpack prints it";
            refuse_operand(rt, asked, 0, OnLine { line, words })
        }
        TextError::TooLong => refuse_operand(rt, asked, 0, TOO_LONG),
        TextError::NoRoom => refuse_operand(rt, asked, 0, NO_ROOM),
    }
}

// A text that is an operand, unless it is too long.
pub(crate) fn read_text<'a>(
    rt: &HostRuntime,
    asked: Asked,
    place: usize,
    buffer: &'a mut [u8; 65536],
) -> Result<&'a [u8], Told> {
    let text = read_operand(rt, asked, place, buffer)?;
    if text.len() < 65536 {
        return Ok(text);
    }
    Err(refuse_operand(rt, asked, place, TOO_LONG))
}

pub(crate) fn pack(rt: &HostRuntime, asked: Asked) -> Result<Status, Told> {
    let mut buffer = [0u8; 65536];
    let text = read_text(rt, asked, 0, &mut buffer)?;
    let mut numbers = listed_numbers();
    let (layout, list) = match layouts::read(text, &mut numbers) {
        Ok(read) => (read.layout, numbers::front(&numbers, read.count)),
        Err(error) => return Err(refuse_as_text(rt, asked, error)),
    };
    let document = document_in(layout, list);
    let mut file = files::ticket_bytes();
    match write_document(document, list, &mut file) {
        Ok(count) => {
            write_operand(rt, asked, 1, ascii::front(&file, count))?;
            Ok(Status::Done)
        }
        Err(why) => Err(refuse_text(rt, asked, why, document, list, text)),
    }
}
