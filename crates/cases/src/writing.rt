// `pack` and `write`: from a list of numbers into bytes. `numeral`: a number in decimal.
use super::answer::with_bytes;
use report::{marked_bytes, room_of_bytes};

pub(crate) fn pack(list: &[u16], room: usize) {
    let mut lent = marked_bytes();
    let reply = reader::pack(list, room_of_bytes(&mut lent, room));
    with_bytes(reply, ascii::front(&lent, room));
}

pub(crate) fn write(list: &[u16], growers: usize, pilots: usize, room: usize) {
    let mut lent = marked_bytes();
    let bytes = room_of_bytes(&mut lent, room);
    let reply = reader::write_settlement(list, growers, pilots, bytes);
    with_bytes(reply, ascii::front(&lent, room));
}

fn with_part(n: usize, part: u16) -> usize {
    n % 0x0001_0000_0000_0000 * 0x0001_0000 + usize::from(part)
}

// The number of 64 bits that parts of 16 make, the highest first.
fn joined(parts: &[u16]) -> usize {
    let mut n: usize = 0;
    for &part in parts {
        n = with_part(n, part);
    }
    n
}

pub(crate) fn numeral(parts: &[u16]) {
    let mut lent = report::marked_digits();
    let first = ascii::numeral(joined(parts), &mut lent);
    report::done_digits(first, &lent);
}
