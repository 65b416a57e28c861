// Numbers in decimal digits.
ghost use Rattle.std.specs.Prelude.{◌≡◌, ◌%◌};
ghost use Rattle.ascii.specs.Decimal.{digit};
ghost use Rattle.ascii.specs.Numeral.{numeral, numeral_bytes};
ghost use Rattle.ascii.specs.Writing.{Wrote};

// The last digit of a number. Digits follow one another from the byte of 0 on, which is 48.
fn last_digit(n: usize) -> u8
    ensures { result ≡ digit (n % 10) }
{
    b'0' + (n % 10) as u8
}

// Writes a number, without leading zeros, at the end of a lent array, and returns the place of its first digit. Twenty places hold every
// number of 64 bits.
pub fn numeral(n: usize, digits: &mut [u8; 20]) -> usize
    ensures { Wrote digits.old digits.new result numeral_bytes (numeral n) }
{
    let mut first = 19;
    let mut rest = n;
    while rest >= 10 {
        digits[first] = last_digit(rest);
        first -= 1;
        rest /= 10;
    }
    digits[first] = last_digit(rest);
    first
}
