// A text read as the numbers of a document.
ghost use Rattle.std.specs.Prelude.{◌≡◌, false, ◌&&◌, ◌+◌, ◌<◌, ◌≤◌, eqb, length, drop};
ghost use Rattle.std.proofs.lemmas.List.Edits.{sets};
ghost use Rattle.layouts.specs.Squeezed.{most_text, squeezed};
ghost use Rattle.layouts.specs.Reading.{starts_with, step_of, digits_read, entry_read, entries_in, worded, kind_of, plain_as, document_in};
ghost use Rattle.layouts.specs.Reading.{grown};
ghost use Rattle.layouts.specs.Answer.{text_error, read_reply, read_kept, got_of, WalkedAs};
ghost use Rattle.lists.specs.NumberText.{within, numbers_of};

use crate::squeezing::{line_of, squeeze};
use labels::{Layout, label};
use lists::ListError;
use numbers::{entry, front};

// Why a text was not read: the line of what may not stand where it is, a text of more than 131,071 bytes, or a list that is too short.
#[derive(Clone, Copy, Debug, PartialEq, Eq)]
pub enum TextError {
    Wrong { line: usize },
    TooLong,
    NoRoom,
}

impl From<ListError> for TextError {
    ghost from_gives = { λ e r. r ≡ text_error e };

    fn from(error: ListError) -> TextError {
        match error {
            ListError::Wrong { line } => TextError::Wrong { line },
            ListError::NoRoom => TextError::NoRoom,
        }
    }
}

// What was read: which document the text is of, and how many numbers there are.
#[derive(Clone, Copy, Debug, PartialEq, Eq)]
pub struct TextRead {
    pub layout: Layout,
    pub count: usize,
}

// What a byte is after some digits: one digit more, or the blank after them.
#[derive(Clone, Copy, Debug, PartialEq, Eq)]
pub(crate) enum Step {
    More { value: u16 },
    Ends,
}

// Whether words stand in a text from a place on.
fn stands(text: &[u8], at: usize, words: &[u8]) -> bool
    requires { at ≤ length text.now }
    ensures { result ≡ starts_with words.now (drop at text.now) }
{
    text[at..].starts_with(words)
}

// A value with one digit more, if it still has 16 bits.
fn grown(value: usize) -> Option<Step>
    ensures { result ≡ grown value }
{
    if value < 65536 {
        return Some(Step::More {
            value: value as u16,
        });
    }
    None
}

fn is_digit(b: u8) -> bool
    ensures { result ≡ within 48 57 b }
{
    48 <= b && b <= 57
}

fn is_blank_after(seen: bool, b: u8) -> bool
    ensures { result ≡ (seen && eqb b 32) }
{
    seen && b == 32
}

// None if neither a digit nor the blank after digits.
fn after_digits(value: u16, seen: bool, b: u8) -> Option<Step>
    ensures { result ≡ step_of value seen b }
{
    if is_digit(b) {
        return grown(10 * usize::from(value) + usize::from(b - 48));
    }
    if is_blank_after(seen, b) {
        return Some(Step::Ends);
    }
    None
}

// The number that stands at a place, and the place after it. By index: that place is part of the answer.
fn number_at(text: &[u8], at: usize) -> Option<(u16, usize)>
    ensures { result ≡ got_of (length text.now) (digits_read 0 false (drop at text.now)) }
{
    let mut value: u16 = 0;
    let mut seen = false;
    for k in at..text.len() {
        match after_digits(value, seen, text[k])? {
            Step::Ends => return Some((value, k + 1)),
            Step::More { value: more } => {
                value = more;
                seen = true;
            }
        }
    }
    None
}

// The number of a place of the document, after its label.
fn entry_at(
    text: &[u8],
    at: usize,
    layout: Layout,
    growers: u16,
    pilots: u16,
    place: usize,
) -> Option<(u16, usize)>
    requires { at ≤ length text.now }
    ensures { result ≡ got_of (length text.now) (entry_read layout growers pilots place (drop at text.now)) }
{
    let mut words = [0u8; 64];
    let count = label(layout, growers, pilots, place, &mut words);
    let before = ascii::front(&words, count);
    if stands(text, at, before) {
        return number_at(text, at + before.len());
    }
    None
}

// Stores the numbers of a squeezed text in a list, and returns how many there are, or the place where no number with its label stands. By
// index: the numbers before place k name the label of the number that is stored there.
fn walk(text: &[u8], layout: Layout, list: &mut [u16; 65536]) -> Result<usize, usize>
    ensures walked_as { WalkedAs (length text.now) (entries_in layout text.now) list.new result }
    ensures list_len_unchanged { length list.new ≡ length list.old }
{
    let mut at: usize = 0;
    for k in 0..65536usize {
        let named = front(list, k);
        if text.len() <= at {
            return Ok(k);
        }
        let growers = entry(named, 1);
        let pilots = entry(named, 2);
        let Some((value, next)) = entry_at(text, at, layout, growers, pilots, k) else {
            return Err(at);
        };
        list[k] = value;
        at = next;
    }
    Err(at)
}

// Writes numbers to the front of a list.
fn copy_front(numbers: &[u16], list: &mut [u16])
    requires { length numbers.now ≤ length list.old }
    ensures { list.new ≡ sets list.old 0 numbers.now }
{
    list[..numbers.len()].copy_from_slice(numbers);
}

// A text with words, of which a squeezed copy is there.
fn worded(
    layout: Layout,
    text: &[u8],
    tight: &[u8],
    list: &mut [u16],
) -> Result<TextRead, TextError>
    requires { (length text.now ≤ most_text) × (tight.now ≡ squeezed text.now) }
    ensures value { result ≡ read_reply (length list.old) (worded layout text.now) }
    ensures list_after { list.new ≡ read_kept list.old (worded layout text.now) }
{
    let mut own = [0u16; 65536];
    match walk(tight, layout, &mut own) {
        Err(at) => Err(TextError::Wrong {
            line: line_of(text, at),
        }),
        Ok(count) => {
            if list.len() < count {
                return Err(TextError::NoRoom);
            }
            copy_front(front(&own, count), list);
            Ok(TextRead { layout, count })
        }
    }
}

// Which document a plain list is of.
fn kind_of(list: &[u16]) -> Layout
    ensures { result ≡ kind_of list.now }
{
    if entry(list, 0) == 2 {
        return Layout::Settlement;
    }
    Layout::Ticket
}

// A plain list of numbers.
fn plain(text: &[u8], list: &mut [u16]) -> Result<TextRead, TextError>
    ensures value { result ≡ read_reply (length list.old) (plain_as (numbers_of text.now)) }
    ensures list_after { list.new ≡ read_kept list.old (plain_as (numbers_of text.now)) }
{
    let count = lists::read_numbers(text, list)?;
    Ok(TextRead {
        layout: kind_of(front(list, count)),
        count,
    })
}

// Reads a text into the front of a lent list: one that names its numbers, as they are written by `write`, or a plain list.
pub fn read(text: &[u8], list: &mut [u16]) -> Result<TextRead, TextError>
    ensures value { result ≡ read_reply (length list.old) (document_in text.now) }
    ensures list_after { list.new ≡ read_kept list.old (document_in text.now) }
{
    if 131071 < text.len() {
        return Err(TextError::TooLong);
    }
    let mut page = [0u8; 131072];
    let count = squeeze(text, &mut page);
    let tight = ascii::front(&page, count);
    if stands(tight, 0, b"ticket ") {
        return worded(Layout::Ticket, text, tight, list);
    }
    if stands(tight, 0, b"settlement ") {
        return worded(Layout::Settlement, text, tight, list);
    }
    plain(text, list)
}
