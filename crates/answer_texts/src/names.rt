// Names of growers and pilots, from a text: a name a line, growers first. A party without one is told by its number.
use files::Text;
use std::io::{Result, Write};

// The line of a party without the byte that comes before a line end on other systems. It has no bytes if there is none.
fn line_of<'a>(names: &'a [u8], party: usize) -> &'a [u8] {
    let line = names
        .split(|byte| *byte == b'\n')
        .nth(party)
        .unwrap_or(b"".as_slice());
    line.strip_suffix(b"\r".as_slice()).unwrap_or(line)
}

// How many letters a name has: all bytes but those that go on with a letter of several bytes.
fn width(name: &[u8]) -> usize {
    name.iter()
        .filter(|byte| **byte < 128 || 191 < **byte)
        .count()
}

// As many blanks as there are at most before the next column.
const BLANKS: [u8; 64] = [b' '; 64];

// Words at the left of a column.
#[derive(Clone, Copy)]
pub(crate) struct Left<'a> {
    pub(crate) words: &'a [u8],
    pub(crate) column: usize,
}

impl<'a> Text for Left<'a> {
    fn write<W: Write>(&self, out: &mut W) -> Result<()> {
        out.write_all(self.words)?;
        let count = self.column.saturating_sub(width(self.words));
        out.write_all(ascii::front(&BLANKS, count))
    }
}

// Somebody at the left of a column: by the name on a line of the names, or by number. There are at most 16 of a side.
#[derive(Clone, Copy)]
pub(crate) struct Party<'a> {
    pub(crate) names: &'a [u8],
    pub(crate) line: usize,
    pub(crate) number: u16,
    pub(crate) column: usize,
}

impl<'a> Text for Party<'a> {
    fn write<W: Write>(&self, out: &mut W) -> Result<()> {
        let column = self.column;
        let words = line_of(self.names, self.line);
        if !words.is_empty() {
            return Left { words, column }.write(out);
        }
        let digits = if self.number < 10 { 1 } else { 2 };
        write!(out, "{}", self.number)?;
        out.write_all(ascii::front(&BLANKS, column.saturating_sub(digits)))
    }
}

// How wide a column is that has a heading of so many letters and the names of some lines. By number: a line is missing where there is no name.
pub(crate) fn column(names: &[u8], from: usize, end: usize, heading: usize) -> usize {
    (from..end).fold(heading, |wide, k| wide.max(width(line_of(names, k))))
}
