// `unpack` and `read`: from bytes into a list of numbers.
use super::answer::with_numbers;
use report::{marked_numbers, room_of_numbers};

pub(crate) fn unpack(ticket: &[u8], room: usize) {
    let mut lent = marked_numbers();
    let reply = reader::unpack(ticket, room_of_numbers(&mut lent, room));
    with_numbers(reply, numbers::front(&lent, room));
}

pub(crate) fn read(settlement: &[u8], growers: usize, pilots: usize, room: usize) {
    let mut lent = marked_numbers();
    let places = room_of_numbers(&mut lent, room);
    let reply = reader::read_settlement(settlement, growers, pilots, places);
    with_numbers(reply, numbers::front(&lent, room));
}
