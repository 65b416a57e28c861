// Bytes and numbers put into a page, one after the other. What does not fit is left out whole.
#![tactic(auto)]

ghost use Rattle.std.specs.Prelude.{◌+◌, ◌≤◌, length};
ghost use Rattle.ascii.specs.Numeral.{numeral};
ghost use Rattle.ascii.specs.Writing.{Wrote};
ghost use Rattle.pages.specs.Put.{Put};

// Writes bytes from a place on, where they fit, and returns the place after them.
fn copy(page: &mut [u8], at: usize, words: &[u8]) -> usize
    requires { at + length words.now ≤ length page.old }
    ensures { Wrote page.old page.new at result words.now }
{
    let end = at + words.len();
    page[at..end].copy_from_slice(words);
    end
}

// Puts bytes into a page from a place on, if they fit there, and returns the place after them.
pub fn put(page: &mut [u8], at: usize, words: &[u8]) -> usize
    ensures { Put page.old page.new at result words.now }
{
    if page.len() < at || page.len() - at < words.len() {
        return at;
    }
    copy(page, at, words)
}

// The same of a number's decimal digits.
pub fn put_number(page: &mut [u8], at: usize, n: usize) -> usize
    ensures { Put page.old page.new at result (numeral n) }
{
    let mut digits = [0u8; 20];
    let first = ascii::numeral(n, &mut digits);
    put(page, at, &digits[first..])
}
