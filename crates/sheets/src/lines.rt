// Bytes, words, numbers and lines, written into a page from a place on. Each function returns the place after what it wrote.
ghost use Rattle.std.specs.Prelude.{◌≡◌, ◌∷◌, [], ◌++◌, ℕ, ◌+◌, ◌*◌, ◌<◌, ◌≤◌, length, get_or, drop};
ghost use Rattle.ascii.specs.Decimal.{decimal};
ghost use Rattle.sheets.specs.Page.{page_bytes};
ghost use Rattle.ascii.specs.Writing.{Wrote};
ghost use Rattle.ascii.specs.Lines.{separator, line};

fn put(page: &mut [u8; 8216], at: usize, byte: u8) -> usize
    requires { at < page_bytes }
    ensures { Wrote page.old page.new at result (byte ∷ []) }
{
    page[at] = byte;
    at + 1
}

pub(crate) fn word(page: &mut [u8; 8216], at: usize, bytes: &[u8]) -> usize
    requires { at + length bytes.now ≤ page_bytes }
    ensures { Wrote page.old page.new at result bytes.now }
{
    pages::put(page, at, bytes)
}

// A number in decimal, be it an amount or a count.
fn number(page: &mut [u8; 8216], at: usize, n: usize) -> usize
    requires { (n < 1000) × (at + 3 ≤ page_bytes) }
    ensures { Wrote page.old page.new at result (decimal n) }
{
    let mut digits = [0u8; 20];
    let first = ascii::numeral(n, &mut digits);
    word(page, at, &digits[first..])
}

// What stands after the number at a place of a line.
fn separator_at(numbers: &[u16], place: usize) -> u8
    requires { place < length numbers.now }
    ensures { result ≡ separator (drop (place + 1) numbers.now) }
{
    if place + 1 < numbers.len() {
        b' '
    } else {
        b'\n'
    }
}

// An amount and what stands after it.
fn field(page: &mut [u8; 8216], at: usize, n: u16, end: u8) -> usize
    requires { (n ≤ 500) × (at + 4 ≤ page_bytes) }
    ensures { Wrote page.old page.new at result (decimal n ++ (end ∷ [])) }
{
    let next = number(page, at, usize::from(n));
    put(page, next, end)
}

// A line of amounts.
pub(crate) fn amounts(page: &mut [u8; 8216], at: usize, numbers: &[u16]) -> usize
    requires { ((k : ℕ) → get_or numbers.now k 0 ≤ 500) × (at + 4 * length numbers.now ≤ page_bytes) }
    ensures { Wrote page.old page.new at result (line numbers.now) }
{
    let mut here = at;
    // By k: what stands after a number depends on whether it is the last.
    for k in 0..numbers.len() {
        here = field(page, here, numbers[k], separator_at(numbers, k));
    }
    here
}

// A line of a word and a number, as a count or a refusal.
pub(crate) fn counted(page: &mut [u8; 8216], at: usize, bytes: &[u8], n: usize) -> usize
    requires { (n < 1000) × (at + length bytes.now + 4 ≤ page_bytes) }
    ensures { Wrote page.old page.new at result (bytes.now ++ line (n ∷ [])) }
{
    let next = word(page, at, bytes);
    let last = number(page, next, n);
    put(page, last, b'\n')
}
