// What is said of a refusal: its number on standard output, and then, on standard error, why and where.
use crate::files_in::{byte_at, operand_at};
use crate::lines::line_in_document;
use answer_texts::RefusalObject;
use checks::{Document, Refusal, refusals_of};
use commands::Asked;
use files::{About, Told, message, print};
use layouts::Layout;
use printing::Refused;
use std::fmt;
use words::Reason;

// The answer to what is refused. What comes of it changes nothing: the command has failed.
fn answer(rt: &HostRuntime, asked: Asked, why: Refusal) {
    let _ = if asked.json {
        print(rt, &RefusalObject { why })
    } else {
        print(rt, &Refused { why })
    };
}

// Why a file is refused.
pub(crate) fn tell_why(rt: &HostRuntime, name: &[u8], why: Refusal) {
    let text = Reason { why };
    message(rt, &About { name, text });
}

// Where a document is refused: at which number, and then at which byte or on which line.
#[derive(Clone, Copy)]
struct Place {
    document: Document,
    why: Refusal,
    growers: u16,
    pilots: u16,
    number: usize,
    unit: &'static str,
    unit_number: usize,
}

impl fmt::Display for Place {
    fn fmt<W: fmt::Write>(&self, f: &mut fmt::Formatter<W>) -> fmt::Result {
        let layout = layout_of(self.document);
        let mut text = [0u8; 64];
        let count = layouts::name(layout, self.growers, self.pilots, self.number, &mut text);
        let name = std::str::from_utf8(ascii::front(&text, count)).unwrap_or("");
        write!(f, "at number {}", self.number)?;
        if self.why == refusals_of(self.document).left {
            f.write_str(" (after the last)")?;
        } else if !name.is_empty() {
            write!(f, " ({name})")?;
        }
        write!(f, ", {} {}", self.unit, self.unit_number)
    }
}

pub(crate) fn layout_of(document: Document) -> Layout {
    match document {
        Document::Ticket => Layout::Ticket,
        Document::Settlement { .. } => Layout::Settlement,
    }
}

// Why a document's bytes are refused, and where. Once its third number has passed, growers and pilots are its second byte and its third.
pub(crate) fn tell_of_bytes(
    rt: &HostRuntime,
    name: &[u8],
    why: Refusal,
    document: Document,
    file: &[u8],
) {
    tell_why(rt, name, why);
    let found = places::of_bytes(document, file);
    let text = Place {
        document,
        why,
        growers: u16::from(byte_at(file, 1)),
        pilots: u16::from(byte_at(file, 2)),
        number: found.number,
        unit: "byte",
        unit_number: found.byte,
    };
    message(rt, &About { name, text });
}

// A refused file that an operand names.
pub(crate) fn refuse_bytes(
    rt: &HostRuntime,
    asked: Asked,
    place: usize,
    why: Refusal,
    document: Document,
    file: &[u8],
) -> Told {
    let name = operand_at(rt, asked, place);
    answer(rt, asked, why);
    tell_of_bytes(rt, name.bytes(), why, document, file);
    Told
}

// A refused text of a document, of which a list was made.
pub(crate) fn refuse_text(
    rt: &HostRuntime,
    asked: Asked,
    why: Refusal,
    document: Document,
    list: &[u16],
    text: &[u8],
) -> Told {
    let word = operand_at(rt, asked, 0);
    let name = word.bytes();
    answer(rt, asked, why);
    tell_why(rt, name, why);
    let growers = numbers::entry(list, 1);
    let pilots = numbers::entry(list, 2);
    let number = places::of_list(document, list);
    let place = Place {
        document,
        why,
        growers,
        pilots,
        number,
        unit: "line",
        unit_number: line_in_document(text, layout_of(document), growers, pilots, number),
    };
    message(rt, &About { name, text: place });
    Told
}

// What is refused without a place of its own. It has no form but text.
pub(crate) fn refuse(rt: &HostRuntime, name: &[u8], why: Refusal) -> Told {
    let _ = print(rt, &Refused { why });
    tell_why(rt, name, why);
    Told
}
