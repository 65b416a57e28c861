// The text of a document's list.
ghost use Rattle.std.specs.Prelude.{Ok, ◌≡◌, ◌||◌, suc, ◌+◌, ◌<◌, ◌≤◌, leb, length};
ghost use Rattle.ascii.specs.Writing.{Wrote};
ghost use Rattle.reader.specs.Answer.{Tells, kept};
ghost use Rattle.labels.specs.Words.{begins};
ghost use Rattle.layouts.specs.Text.{longest, separator, entry_of, text_of, document_text, page_bytes, entry_bytes};

use labels::{Layout, begins_line};
use numbers::{entry, front};
use pages::{put, put_number};
use reader::Refusal;

// The numbers of the longest document.
const LONGEST: usize = 1315;

// Room for its text: a label, a number and what parts it from the next have at most 85 bytes.
fn page() -> [u8; 111775]
    ensures { length result ≡ page_bytes }
{
    [0; 111775]
}

// Whether the number at a place is the last of its line, in a list of `count` numbers.
fn ends_line(layout: Layout, growers: u16, pilots: u16, place: usize, count: usize) -> bool
    requires { place < count }
    ensures { result ≡ (leb count (suc place) || begins layout growers pilots (suc place)) }
{
    count <= place + 1 || begins_line(layout, growers, pilots, place + 1)
}

// What parts a number from the next.
fn put_separator(page: &mut [u8; 111775], at: usize, ends: bool) -> usize
    ensures { at + 1 ≤ page_bytes → Wrote page.old page.new at result (separator ends) × (result ≤ at + 1) }
{
    put(page, at, &[if ends { b'\n' } else { b' ' }])
}

// A number with its label.
fn put_entry(
    page: &mut [u8; 111775],
    at: usize,
    layout: Layout,
    growers: u16,
    pilots: u16,
    place: usize,
    x: u16,
    ends: bool,
) -> usize
    ensures { at + entry_bytes ≤ page_bytes →
        Wrote page.old page.new at result (entry_of layout growers pilots place x ends) × (result ≤ at + entry_bytes) }
{
    let mut words = [0u8; 64];
    let count = labels::label(layout, growers, pilots, place, &mut words);
    let next = put(page, at, ascii::front(&words, count));
    let last = put_number(page, next, usize::from(x));
    put_separator(page, last, ends)
}

// All numbers of a list. By index: the place of a number is in its label.
fn fill(page: &mut [u8; 111775], layout: Layout, list: &[u16]) -> usize
    requires { length list.now ≤ longest }
    ensures { Wrote page.old page.new 0 result (text_of layout list.now) × (result ≤ page_bytes) }
{
    let growers = entry(list, 1);
    let pilots = entry(list, 2);
    let mut at: usize = 0;
    for k in 0..list.len() {
        let ends = ends_line(layout, growers, pilots, k, list.len());
        at = put_entry(page, at, layout, growers, pilots, k, list[k], ends);
    }
    at
}

// Writes the text of a document's list at the front of a lent buffer, and returns how long it is.
pub fn write(layout: Layout, list: &[u16], text: &mut [u8]) -> Result<usize, Refusal>
    ensures tells { Tells result (length text.old) (Ok (document_text layout list.now)) }
    ensures text_after { text.new ≡ kept text.old (Ok (document_text layout list.now)) }
{
    let mut own = page();
    let count = fill(&mut own, layout, front(list, LONGEST));
    if text.len() < count {
        return Err(Refusal::NoRoom);
    }
    put(text, 0, ascii::front(&own, count));
    Ok(count)
}
