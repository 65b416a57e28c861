// A text taken apart at a sign: lines at their ends, words at spaces.
ghost use Rattle.std.specs.Prelude.{◌≤◌, ◌-◌, length};

// The place of the first such sign, or the text's length.
fn find(text: &[u8], sign: u8) -> usize
    ensures { result ≤ length text.now }
{
    for k in 0..text.len() {
        if text[k] == sign {
            return k;
        }
    }
    text.len()
}

// What stands before the first such sign: all if there is none.
pub fn before<'a>(text: &'a [u8], sign: u8) -> &'a [u8] {
    let end = find(text, sign);
    &text[0..end]
}

// What stands after it: nothing if there is none.
pub fn after<'a>(text: &'a [u8], sign: u8) -> &'a [u8]
    ensures { length result.now ≤ length text.now - 1 }
{
    let end = find(text, sign);
    if end < text.len() {
        &text[end + 1..]
    } else {
        &text[end..]
    }
}

// What stands after the first so many words.
pub(crate) fn without_words<'a>(text: &'a [u8], count: usize) -> &'a [u8] {
    let mut rest = text;
    for _k in 0..count {
        let later = after(rest, b' ');
        rest = later;
    }
    rest
}
