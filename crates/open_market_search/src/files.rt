// The files of a small ticket's numbers and of the settlement that is held.
use super::paper::{growers, pilots, ticket_length};
use open_market::Market;

// Whether every number is below 128, and so a byte of the file.
pub(crate) fn are_bytes(ticket: &[u16; 27]) -> bool {
    ticket.iter().all(|&x| x < 128)
}

// Both lend room for twice as many bytes as there are numbers, and return how many were written: 0 if the list was refused.
pub(crate) fn write_ticket(ticket: &[u16; 27], lent: &mut [u8; 54]) -> usize {
    let count = ticket_length(ticket);
    reader::pack(numbers::front(ticket, count), &mut *lent).unwrap_or(0)
}

pub(crate) fn write_settlement(ticket: &[u16; 27], market: Market, lent: &mut [u8; 30]) -> usize {
    reader::write_settlement(
        tables::settlement_front(&market.settlement),
        growers(ticket),
        pilots(ticket),
        &mut *lent,
    )
    .unwrap_or(0)
}
