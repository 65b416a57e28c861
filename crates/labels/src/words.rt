// The words of a spot.
ghost use Rattle.std.specs.Prelude.{◌≡◌, ◌+◌, ◌≤◌, length};
ghost use Rattle.ascii.specs.Writing.{Wrote};
ghost use Rattle.labels.specs.Words.{subject, lead, head_name, term_name, agreed_name, pair_name, field_name, opening, label, name, begins};

use crate::places::{Layout, Line, spot_of};
use pages::{put, put_number};

// Each of these puts words into a page from a place on, and returns the place after them. They are put by hand, not written by `Display`:
// the contracts say each byte of the text, and the library allocates nothing.

// Whom a line is about.
fn put_subject(page: &mut [u8; 64], at: usize, line: Line) -> usize
    ensures { at + 46 ≤ 64 → Wrote page.old page.new at result (subject line) × (result ≤ at + 46) }
{
    match line {
        Line::Head => at,
        Line::Grower { number } => {
            let next = put(page, at, b"grower ");
            put_number(page, next, number)
        }
        Line::Pilot { number } => {
            let next = put(page, at, b"pilot ");
            put_number(page, next, number)
        }
        Line::Pair { grower, pilot } => {
            let next = put(page, at, b"pair ");
            let later = put_number(page, next, grower);
            let last = put(page, later, b" ");
            put_number(page, last, pilot)
        }
    }
}

// The same with what parts it from a name.
fn put_lead(page: &mut [u8; 64], line: Line, between: &[u8]) -> usize
    ensures { length between.now ≤ 2 → Wrote page.old page.new 0 result (lead between.now line) × (result ≤ 48) }
{
    let next = put_subject(page, 0, line);
    if next == 0 {
        return 0;
    }
    put(page, next, between)
}

// The name of a number on the first line, and of one of a pair.
fn put_head_name(page: &mut [u8; 64], at: usize, layout: Layout, column: usize) -> usize
    ensures { at + 15 ≤ 64 → Wrote page.old page.new at result (head_name layout column) × (result ≤ at + 15) }
{
    match (column, layout) {
        (0, Layout::Ticket) => put(page, at, b"ticket kind"),
        (0, Layout::Settlement) => put(page, at, b"settlement kind"),
        (1, _) => put(page, at, b"growers"),
        _ => put(page, at, b"pilots"),
    }
}

fn put_term_name(page: &mut [u8; 64], at: usize, column: usize) -> usize
    ensures { at + 15 ≤ 64 → Wrote page.old page.new at result (term_name column) × (result ≤ at + 15) }
{
    match column {
        0 => put(page, at, b"tariff cap"),
        1 => put(page, at, b"gain"),
        2 => put(page, at, b"pay"),
        3 => put(page, at, b"free cap"),
        _ => put(page, at, b"joint gain"),
    }
}

fn put_agreed_name(page: &mut [u8; 64], at: usize, column: usize) -> usize
    ensures { at + 15 ≤ 64 → Wrote page.old page.new at result (agreed_name column) × (result ≤ at + 15) }
{
    match column {
        0 => put(page, at, b"tariff hours"),
        1 => put(page, at, b"free-deal hours"),
        _ => put(page, at, b"pay"),
    }
}

fn put_pair_name(page: &mut [u8; 64], at: usize, layout: Layout, column: usize) -> usize
    ensures { at + 15 ≤ 64 → Wrote page.old page.new at result (pair_name layout column) × (result ≤ at + 15) }
{
    match layout {
        Layout::Ticket => put_term_name(page, at, column),
        Layout::Settlement => put_agreed_name(page, at, column),
    }
}

// The name of a number on its line.
fn put_field(page: &mut [u8; 64], at: usize, layout: Layout, line: Line, column: usize) -> usize
    ensures { at + 15 ≤ 64 → Wrote page.old page.new at result (field_name layout line column) × (result ≤ at + 15) }
{
    match line {
        Line::Head => put_head_name(page, at, layout, column),
        Line::Grower { number: _ } | Line::Pilot { number: _ } => put(page, at, b"hours"),
        Line::Pair {
            grower: _,
            pilot: _,
        } => put_pair_name(page, at, layout, column),
    }
}

// Writes what is said of a place, as `pair 3 7, joint gain`, at the front of a lent array, and returns how long that is.
pub fn name(layout: Layout, growers: u16, pilots: u16, place: usize, words: &mut [u8; 64]) -> usize
    ensures { Wrote words.old words.new 0 result (name layout growers pilots place) × (result ≤ 64) }
{
    let spot = spot_of(layout, growers, pilots, place);
    let line = spot.line;
    let next = put_lead(words, line, b", ");
    put_field(words, next, layout, line, spot.column)
}

// The subject, at the first number of a line.
fn put_opening(page: &mut [u8; 64], line: Line, column: usize) -> usize
    ensures { Wrote page.old page.new 0 result (opening column line) × (result ≤ 48) }
{
    if column == 0 {
        return put_lead(page, line, b" ");
    }
    0
}

// The same of what stands before the number in a text.
pub fn label(layout: Layout, growers: u16, pilots: u16, place: usize, words: &mut [u8; 64]) -> usize
    ensures { Wrote words.old words.new 0 result (label layout growers pilots place) × (result ≤ 64) }
{
    let spot = spot_of(layout, growers, pilots, place);
    let line = spot.line;
    let next = put_opening(words, line, spot.column);
    let last = put_field(words, next, layout, line, spot.column);
    put(words, last, b" ")
}

// Whether a line of the text begins at a place.
pub fn begins_line(layout: Layout, growers: u16, pilots: u16, place: usize) -> bool
    ensures { result ≡ begins layout growers pilots place }
{
    spot_of(layout, growers, pilots, place).column == 0
}
