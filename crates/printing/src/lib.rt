// What the programs print of a ticket: its sheet, its numbers with words, everybody's free hours, or its refusal. The functions here are
// proved safe, and held to the stored output of the programs above them.
#![tactic(auto)]

use checks::Refusal;
use files::Text;
use layouts::Layout;
use numbers::front;
use std::fmt;
use std::io::{Result, Write};

// The number of a refusal, alone on its line for other programs to read.
#[derive(Clone, Copy)]
pub struct Refused {
    pub why: Refusal,
}

impl fmt::Display for Refused {
    fn fmt<W: fmt::Write>(&self, f: &mut fmt::Formatter<W>) -> fmt::Result {
        writeln!(f, "REFUSED {}", u8::from(self.why))
    }
}

// The sheet of a ticket's file.
#[derive(Clone, Copy)]
pub struct Sheet<'a> {
    pub ticket: &'a [u8],
}

impl<'a> Text for Sheet<'a> {
    fn write<W: Write>(&self, out: &mut W) -> Result<()> {
        let mut text = [0u8; sheets::PAGE];
        match sheets::sheet(self.ticket, &mut text) {
            Ok(count) => out.write_all(ascii::front(&text, count)),
            Err(_) => Ok(()),
        }
    }
}

// Room for the text of every document.
const DOCUMENT: usize = 32768;

// A document's numbers with words.
#[derive(Clone, Copy)]
pub struct Document<'a> {
    pub layout: Layout,
    pub list: &'a [u16],
}

impl<'a> Text for Document<'a> {
    fn write<W: Write>(&self, out: &mut W) -> Result<()> {
        let mut text = [0u8; DOCUMENT];
        match layouts::write(self.layout, self.list, &mut text) {
            Ok(count) => out.write_all(ascii::front(&text, count)),
            Err(_) => Ok(()),
        }
    }
}

// Everybody's free hours, a line for the growers and one for the pilots. The rows begin with those whom the ticket tells of.
#[derive(Clone, Copy)]
pub struct FreeHours<'a> {
    pub ticket: &'a [u16],
    pub growers: [u16; 16],
    pub pilots: [u16; 16],
}

impl<'a> fmt::Display for FreeHours<'a> {
    fn fmt<W: fmt::Write>(&self, f: &mut fmt::Formatter<W>) -> fmt::Result {
        f.write_str("growers")?;
        for hours in front(&self.growers, tables::growers(self.ticket)) {
            write!(f, " {hours}")?;
        }
        f.write_str("\npilots")?;
        for hours in front(&self.pilots, tables::pilots(self.ticket)) {
            write!(f, " {hours}")?;
        }
        f.write_str("\n")
    }
}
