// Room for the files of the exchange.

// One byte more than the longest ticket has, so that a longer file is refused as one that has bytes left.
pub fn ticket_bytes() -> [u8; 2084] {
    [0; 2084]
}

// One byte more than the longest settlement of 16 by 16 pairs has: three, and six for each pair.
pub fn settlement_bytes() -> [u8; 1540] {
    [0; 1540]
}
