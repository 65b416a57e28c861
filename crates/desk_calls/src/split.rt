// The words of a line, which blanks part: spaces, tabs, and the carriage returns of lines that end in two bytes.
ghost use Rattle.std.specs.Prelude.{◌≡◌, ◌≤◌, length};
ghost use Rattle.desk_calls.specs.Words.{blank, blanks, letters, from_word, first_word, after_word, word};

fn is_blank(b: u8) -> bool
    ensures { result ≡ blank b }
{
    b == 32 || (b == 9 || b == 13)
}

// How many blanks a text begins with, and how many other bytes.
fn blanks(text: &[u8]) -> usize
    ensures { (result ≡ blanks text.now) × (result ≤ length text.now) }
{
    text.iter()
        .position(|&b| !is_blank(b))
        .unwrap_or(text.len())
}

fn letters(text: &[u8]) -> usize
    ensures { (result ≡ letters text.now) × (result ≤ length text.now) }
{
    text.iter().position(|&b| is_blank(b)).unwrap_or(text.len())
}

// What stands after the blanks that a text begins with.
fn from_word<'a>(text: &'a [u8]) -> &'a [u8]
    ensures { result.now ≡ from_word text.now }
{
    let start = blanks(text);
    &text[start..]
}

// The first word of a text: nothing if it has none.
fn first_word<'a>(text: &'a [u8]) -> &'a [u8]
    ensures { result.now ≡ first_word text.now }
{
    let word = from_word(text);
    let end = letters(word);
    &word[0..end]
}

// What stands after it.
fn after_word<'a>(text: &'a [u8]) -> &'a [u8]
    ensures { result.now ≡ after_word text.now }
{
    let word = from_word(text);
    let end = letters(word);
    &word[end..]
}

// A word of a line: nothing if it has fewer. Words count from 0.
pub fn word<'a>(line: &'a [u8], place: usize) -> &'a [u8]
    ensures { result.now ≡ word line.now place }
{
    let mut rest = line;
    for _k in 0..place {
        rest = after_word(rest);
    }
    first_word(rest)
}
