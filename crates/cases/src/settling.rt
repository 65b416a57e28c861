// `settle` and `sheet`: a ticket settled into bytes, with the verdict on them, and into text. `account`: what a settlement brings everybody.
use super::answer::{judged, with_bytes, with_text};
use reader::Refusal;
use report::{marked_bytes, room_of_bytes};

fn settled(ticket: &[u8], reply: Result<usize, Refusal>, lent: &[u8]) {
    with_bytes(reply, lent);
    if let Ok(count) = reply {
        judged(marker::mark(ticket, ascii::front(lent, count)));
    }
}

pub(crate) fn settle(ticket: &[u8], room: usize) {
    let mut lent = marked_bytes();
    let reply = settler::settle(ticket, room_of_bytes(&mut lent, room));
    settled(ticket, reply, ascii::front(&lent, room));
}

pub(crate) fn sheet(ticket: &[u8], room: usize) {
    let mut lent = marked_bytes();
    let reply = sheets::sheet(ticket, room_of_bytes(&mut lent, room));
    with_text(reply, ascii::front(&lent, room));
}

pub(crate) fn account(ticket: &[u8], settlement: &[u8]) {
    match accounts::account(ticket, settlement) {
        Err(why) => report::refused(u8::from(why)),
        Ok(account) => report::done_list(account.count, &account.list),
    }
}
