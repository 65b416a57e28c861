// A text without its comments, and with one blank after each word: what a person may add to a text makes no difference here.
ghost use Rattle.std.specs.Prelude.{◌≡◌, ◌+◌, ◌<◌, ◌≤◌, length};
ghost use Rattle.ascii.specs.Writing.{Wrote};
ghost use Rattle.layouts.specs.Squeezed.{outside, next_mode, kept, given, last_of, bytes_in, squeezed, is_here, fewer, line_end, line_at, most_text};

use lists::white;
use pages::put;

// Where the next byte of a text stands: between words, in a word, or in a comment.
#[derive(Clone, Copy, Debug, PartialEq, Eq)]
pub(crate) enum Mode {
    Gap,
    Word,
    Comment,
}

fn outside(b: u8) -> Mode
    ensures { result ≡ outside b }
{
    if white(b) {
        return Mode::Gap;
    }
    if b == 35 {
        return Mode::Comment;
    }
    Mode::Word
}

fn next_mode(mode: Mode, b: u8) -> Mode
    ensures { result ≡ next_mode mode b }
{
    match mode {
        Mode::Gap | Mode::Word => outside(b),
        Mode::Comment => {
            if b == 10 {
                return Mode::Gap;
            }
            Mode::Comment
        }
    }
}

// The byte itself if it is one of a word, else what is left.
fn kept(next: Mode, b: u8, left: Option<u8>) -> Option<u8>
    ensures { result ≡ kept next b left }
{
    match next {
        Mode::Word => Some(b),
        Mode::Gap | Mode::Comment => left,
    }
}

// What a byte leaves of itself in the squeezed text.
fn given(mode: Mode, b: u8) -> Option<u8>
    ensures { result ≡ given mode b }
{
    match mode {
        Mode::Gap => kept(outside(b), b, None),
        Mode::Word => kept(outside(b), b, Some(b' ')),
        Mode::Comment => None,
    }
}

// What the end of the text leaves.
fn last(mode: Mode) -> Option<u8>
    ensures { result ≡ last_of mode }
{
    match mode {
        Mode::Word => Some(b' '),
        Mode::Gap | Mode::Comment => None,
    }
}

// Puts a byte, if there is one, at a place.
fn store(page: &mut [u8; 131072], at: usize, g: Option<u8>) -> usize
    requires { at < 131072 }
    ensures { Wrote page.old page.new at result (bytes_in g) × (result ≤ at + 1) }
{
    let Some(value) = g else {
        return at;
    };
    page[at] = value;
    at + 1
}

// Writes a text squeezed at the front of a page, and returns how long it is. The page has one byte more than the longest text.
pub(crate) fn squeeze(text: &[u8], page: &mut [u8; 131072]) -> usize
    requires { length text.now ≤ most_text }
    ensures { Wrote page.old page.new 0 result (squeezed text.now) × (result ≤ most_text + 1) }
{
    let mut mode = Mode::Gap;
    let mut count: usize = 0;
    for &b in text {
        count = store(page, count, given(mode, b));
        mode = next_mode(mode, b);
    }
    store(page, count, last(mode))
}

fn is_here(g: Option<u8>, k: usize) -> bool
    ensures { result ≡ is_here g k }
{
    g.is_some() && k == 0
}

fn fewer(g: Option<u8>, k: usize) -> usize
    ensures { result ≡ fewer g k }
{
    if g.is_some() { k.saturating_sub(1) } else { k }
}

fn line_end(b: u8) -> usize
    ensures { (result ≡ line_end b) × (result < 2) }
{
    usize::from(b == b'\n')
}

// The line of the byte that left byte number k of the squeezed text, or the last line.
pub(crate) fn line_of(text: &[u8], k: usize) -> usize
    requires { length text.now ≤ most_text }
    ensures { result ≡ line_at text.now k }
{
    let mut mode = Mode::Gap;
    let mut line: usize = 1;
    let mut left = k;
    for &b in text {
        let g = given(mode, b);
        if is_here(g, left) {
            return line;
        }
        left = fewer(g, left);
        line += line_end(b);
        mode = next_mode(mode, b);
    }
    line
}
