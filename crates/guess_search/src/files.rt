// Small tickets and settlements as files, in which a number is a byte: their numbers, and the file of a settlement from its squares.
use grid::cell;

fn wide(x: u8) -> u16 {
    x as u16
}

fn value(file: &[u8], place: usize) -> u8 {
    if place < file.len() { file[place] } else { 0 }
}

// How many there are.
pub(crate) fn pilots(ticket: &[u8]) -> usize {
    value(ticket, 2) as usize
}

// The numbers of a file, 0 past its end.
pub(crate) fn numbers(file: &[u8]) -> [u16; 27] {
    let mut list: [u16; 27] = [0; 27];
    for place in 0..27usize {
        list[place] = wide(value(file, place));
    }
    list
}

// A number as a byte. All from 255 on become 255, which is above every limit.
fn narrow(x: u16) -> u8 {
    if x < 255 { x as u8 } else { 255 }
}

// The number of a pair in a square, where there are one or two pilots.
fn of_pair(square: [[u16; 16]; 16], pair: usize, pilots: usize) -> u8 {
    if pilots == 2 {
        narrow(cell(square, pair / 2, pair % 2))
    } else {
        narrow(cell(square, pair, 0))
    }
}

// The file of a settlement of a ticket with one or two pilots.
pub(crate) fn settlement(
    ticket: &[u8],
    tariff_hours: [[u16; 16]; 16],
    free_deal_hours: [[u16; 16]; 16],
    pay: [[u16; 16]; 16],
) -> [u8; 15] {
    let mut file = plain::first_settlement(ticket);
    let pilots = pilots(ticket);
    for place in 3..plain::settlement_length(ticket) {
        let pair = place / 3 - 1;
        file[place] = match place % 3 {
            0 => of_pair(tariff_hours, pair, pilots),
            1 => of_pair(free_deal_hours, pair, pilots),
            _ => of_pair(pay, pair, pilots),
        };
    }
    file
}
