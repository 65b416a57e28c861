// `windows`: a ticket narrowed to weekly windows.
use super::answer::with_bytes;
use report::{marked_bytes, room_of_bytes};

pub(crate) fn narrow(ticket: &[u8], list: &[u16], room: usize) {
    let mut lent = marked_bytes();
    let reply = windows::narrow(ticket, list, room_of_bytes(&mut lent, room));
    with_bytes(reply, ascii::front(&lent, room));
}
