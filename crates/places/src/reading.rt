// The numbers that bytes begin with, whatever they are, and the bytes that numbers take.
ghost use Rattle.std.specs.Prelude.{◌≡◌, ◌≤◌, length, take};
ghost use Rattle.groups.specs.Groups.{pack};
ghost use Rattle.places.specs.Places.{numbers_in, most_numbers};

use groups::{Got, number, size};

// Room for one number more than the longest ticket has.
pub(crate) fn room() -> [u16; 1316]
    ensures { length result ≡ most_numbers }
{
    [0; 1316]
}

// Writes the numbers that bytes begin with to the front of a list, until none can be read or the list is full, and returns how many
// there are.
pub(crate) fn fill(s: &[u8], list: &mut [u16]) -> usize
    ensures { take result list.new ≡ numbers_in (length list.old) s.now }
{
    let mut here: usize = 0;
    // k counts numbers, `here` bytes.
    for k in 0..list.len() {
        let got = number(s, here);
        let Got::Number { value, next } = got else {
            return k;
        };
        list[k] = value as u16;
        here = next;
    }
    list.len()
}

// The bytes that numbers take.
pub(crate) fn bytes_of(list: &[u16]) -> usize
    requires { length list.now ≤ most_numbers }
    ensures { result ≡ length (pack list.now) }
{
    let mut total: usize = 0;
    for &x in list {
        total = total + size(x);
    }
    total
}
