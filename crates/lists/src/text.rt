// Decimal numbers in a text: white space stands between them, and a comment goes from `#` to the end of its line.
ghost use Rattle.std.specs.Prelude.{◌≡◌, ◌&&◌, ◌||◌, ◌+◌, ◌<◌, length};
ghost use Rattle.std.proofs.lemmas.List.Edits.{sets};
ghost use Rattle.lists.specs.NumberText.{within, white, kind_of, grown, next_mode, ended, last, numbers_in, line_ends, numbers_of};
ghost use Rattle.lists.specs.NumberText.{outside, in_comment};
ghost use Rattle.lists.specs.Listing.{Walked, list_reply, list_kept};

// Why a text's numbers were not read: the line of the first byte that may not stand where it is, or a list that is too short.
#[derive(Clone, Copy, Debug, PartialEq, Eq)]
pub enum ListError {
    Wrong { line: usize },
    NoRoom,
}

// What a byte is.
#[derive(Clone, Copy, Debug, PartialEq, Eq)]
pub(crate) enum Kind {
    LineEnd,
    Blank,
    Hash,
    Digit { value: u16 },
    Other,
}

// Where the next byte stands: between numbers, in a comment, or in a number whose digits so far have a value.
#[derive(Clone, Copy, Debug, PartialEq, Eq)]
pub(crate) enum Mode {
    Gap,
    Comment,
    Number { value: u16 },
}

fn within(b: u8, low: u8, high: u8) -> bool
    ensures { result ≡ within low high b }
{
    low <= b && b <= high
}

// A space, or one of the control characters from the tab to the carriage return.
pub fn white(b: u8) -> bool
    ensures { result ≡ white b }
{
    b == 32 || within(b, 9, 13)
}

fn kind_of(b: u8) -> Kind
    ensures { result ≡ kind_of b }
{
    if b == 10 {
        return Kind::LineEnd;
    }
    if white(b) {
        return Kind::Blank;
    }
    if b == 35 {
        return Kind::Hash;
    }
    if within(b, 48, 57) {
        return Kind::Digit {
            value: u16::from(b - 48),
        };
    }
    Kind::Other
}

// A number with one digit more, if it still has 16 bits.
fn grown(value: u16, digit: u16) -> Option<Mode>
    ensures { result ≡ grown value digit }
{
    let more = 10 * usize::from(value) + usize::from(digit);
    if more < 65536 {
        return Some(Mode::Number { value: more as u16 });
    }
    None
}

// The mode after a byte outside comments, where the digits so far have a value: none if the byte may not stand there.
fn outside(value: u16, kind: Kind) -> Option<Mode>
    ensures { result ≡ outside value kind }
{
    match kind {
        Kind::LineEnd | Kind::Blank => Some(Mode::Gap),
        Kind::Hash => Some(Mode::Comment),
        Kind::Digit { value: digit } => grown(value, digit),
        Kind::Other => None,
    }
}

fn in_comment(kind: Kind) -> Mode
    ensures { result ≡ in_comment kind }
{
    match kind {
        Kind::LineEnd => Mode::Gap,
        _ => Mode::Comment,
    }
}

fn next_mode(mode: Mode, kind: Kind) -> Option<Mode>
    ensures { result ≡ next_mode mode kind }
{
    match mode {
        Mode::Gap => outside(0, kind),
        Mode::Comment => Some(in_comment(kind)),
        Mode::Number { value } => outside(value, kind),
    }
}

// The number that ends before a byte of a kind, if one does.
fn ended(mode: Mode, kind: Kind) -> Option<u16>
    ensures { result ≡ ended mode kind }
{
    match kind {
        Kind::LineEnd | Kind::Blank | Kind::Hash => last(mode),
        Kind::Digit { value: _ } | Kind::Other => None,
    }
}

// The number that ends where the text does.
fn last(mode: Mode) -> Option<u16>
    ensures { result ≡ last mode }
{
    match mode {
        Mode::Gap | Mode::Comment => None,
        Mode::Number { value } => Some(value),
    }
}

fn line_ends(kind: Kind) -> usize
    ensures { (result ≡ line_ends kind) × (result < 2) }
{
    match kind {
        Kind::LineEnd => 1,
        _ => 0,
    }
}

// Stores a number that has ended after the first `count`, if the list has room, and returns how many there are now.
fn store(list: &mut [u16], count: usize, ended: Option<u16>) -> usize
    requires { count + length (numbers_in ended) < 18446744073709551616 }
    ensures { (result ≡ count + length (numbers_in ended)) × (list.new ≡ sets list.old count (numbers_in ended)) }
{
    let Some(value) = ended else {
        return count;
    };
    if count < list.len() {
        list[count] = value;
    }
    count + 1
}

// Stores the numbers of a text as far as the list has room, and counts them all.
fn walk(text: &[u8], list: &mut [u16]) -> Result<usize, ListError>
    ensures { Walked (numbers_of text.now) list.old list.new result }
{
    let mut mode = Mode::Gap;
    let mut passed: usize = 0;
    let mut count: usize = 0;
    for &b in text {
        let kind = kind_of(b);
        let Some(after) = next_mode(mode, kind) else {
            return Err(ListError::Wrong { line: passed + 1 });
        };
        count = store(list, count, ended(mode, kind));
        passed += line_ends(kind);
        mode = after;
    }
    Ok(store(list, count, last(mode)))
}

// Reads the decimal numbers of a text into the front of a lent list, and returns how many there are. The first walk finds what is wrong,
// so a refusal leaves the list as it was.
pub fn read_numbers(text: &[u8], list: &mut [u16]) -> Result<usize, ListError>
    ensures value { result ≡ list_reply (length list.old) (numbers_of text.now) }
    ensures list_after { list.new ≡ list_kept list.old (numbers_of text.now) }
{
    let count = walk(text, &mut [0; 1])?;
    if list.len() < count {
        return Err(ListError::NoRoom);
    }
    walk(text, list)
}
