// Bytes that are numbers and nothing else, decoded with no branch on them. Whether a number has one byte or two cannot be foretold, and a
// processor that expects the wrong one loses more time than a number takes. All this is for numbers of at most two groups.
#![tactic(auto)]

ghost use Rattle.std.specs.Prelude.{true, ◌≡◌, ◌<◌, ◌≤◌, length};
ghost use Rattle.std.proofs.lemmas.List.Edits.{sets};
ghost use Rattle.decoding.specs.Numbered.{follows, ended, joined, numbered_after, numbers_after, decoded_as};

// Whether a byte may follow another.
fn follows(prior: u8, b: u8) -> bool
    ensures { result ≡ follows prior b }
{
    (prior < 128) | ((0 < b) & (b < 128))
}

// How many numbers a byte ends.
fn ended(b: usize) -> usize
    requires { b < 256 }
    ensures { result ≡ ended b }
{
    1 - b / 128
}

// The number that a byte ends, by the byte and the one before it.
fn joined(prior: usize, b: usize) -> u16
    requires { (prior < 256) × (b < 256) }
    ensures { result ≡ joined prior b }
{
    if prior < 128 {
        // `as` is proved to lose nothing here; `try_from` would ask for an answer that is never given.
        b as u16
    } else {
        (prior - 128 + 128 * b) as u16
    }
}

// Whether bytes are numbers and nothing else.
fn numbered(s: &[u8]) -> bool
    ensures { result ≡ numbered_after 0 s.now }
{
    let mut well = true;
    let mut prior: u8 = 0;
    for &b in s {
        well = well & follows(prior, b);
        prior = b;
    }
    well & (prior < 128)
}

// Decodes numbers, each when its last byte is met, and returns how many there are.
fn decode_numbers(s: &[u8], list: &mut [u16]) -> usize
    requires s_value { numbered_after 0 s.now ≡ true }
    requires s_in_bounds { length s.now ≤ length list.old }
    ensures value { result ≡ length (numbers_after 0 s.now) }
    ensures list_after { list.new ≡ sets list.old 0 (numbers_after 0 s.now) }
{
    let mut count: usize = 0;
    let mut prior: usize = 0;
    for &byte in s {
        let b = usize::from(byte);
        list[count] = joined(prior, b);
        count = count + ended(b);
        prior = b;
    }
    count
}

// Decodes bytes that are numbers and nothing else into a list that has room for as many numbers as bytes, and returns how many there are.
// Of other bytes it decodes none, and leaves the list as it was.
pub fn decode(s: &[u8], list: &mut [u16]) -> usize
    ensures value { result ≡ length (decoded_as s.now (length list.old)) }
    ensures list_after { list.new ≡ sets list.old 0 (decoded_as s.now (length list.old)) }
{
    if list.len() < s.len() {
        return 0;
    }
    if !numbered(s) {
        return 0;
    }
    decode_numbers(s, list)
}
