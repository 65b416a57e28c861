// A word as a number of 16 bits, in decimal digits.
ghost use Rattle.std.specs.Prelude.{◌≡◌};
ghost use Rattle.desk_calls.specs.Numbers.{is_digit, with_digit, number_of};

fn is_digit(b: u8) -> bool
    ensures { result ≡ is_digit b }
{
    48 <= b && b <= 57
}

// A number with one digit more, if it still has 16 bits.
fn with_digit(value: u16, b: u8) -> Option<u16>
    ensures { result ≡ with_digit value b }
{
    if !is_digit(b) {
        return None;
    }
    let more = 10 * usize::from(value) + usize::from(b - 48);
    if more < 65536 {
        return Some(more as u16);
    }
    None
}

pub(crate) fn number(word: &[u8]) -> Option<u16>
    ensures { result ≡ number_of word.now }
{
    if word.is_empty() {
        return None;
    }
    let mut value: u16 = 0;
    for &b in word {
        value = with_digit(value, b)?;
    }
    Some(value)
}
