// Reads the lines of a list of cases: an operation, numbers, and documents. What comes of it is held to a stored output, not proved.
#![tactic(auto)]

mod list;
mod number;
mod operation;
mod tally;
mod words;

use list::numbers;
pub use list::{as_bytes, no_numbers};
use number::{Base, NONE, number_at};
pub use operation::Operation;
use operation::named;
pub use tally::{Tally, counted, nothing_counted};
use words::without_words;
pub use words::{after, before};

// The longest buffer that can be lent, as `report` has it.
const ROOM: usize = 8300;

// The longest document.
const LONGEST: usize = 2200;

// A case: what to do, for how many growers and pilots, with how long a lent buffer, and how many numbers its documents have.
#[derive(Clone, Copy)]
pub struct Case {
    pub operation: Operation,
    pub growers: usize,
    pub pilots: usize,
    pub room: usize,
    pub first: usize,
    pub second: usize,
}

#[derive(Clone, Copy)]
struct Lengths {
    first: usize,
    second: usize,
}

// Whether a line is empty or a remark.
pub fn is_remark(line: &[u8]) -> bool {
    if line.len() == 0 {
        return true;
    }
    line[0] == b'#'
}

// How many words stand before the documents.
fn words_before(operation: Operation) -> usize {
    match operation {
        Operation::Mark | Operation::Worth | Operation::Account | Operation::Numeral => 1,
        Operation::Read | Operation::Write => 4,
        _ => 2,
    }
}

// How the first document is written: a list of numbers in decimal, the bytes of a file in hexadecimal.
fn first_base(operation: Operation) -> Base {
    match operation {
        Operation::Pack | Operation::Write | Operation::Numeral => Base::Ten,
        _ => Base::Sixteen,
    }
}

// The same of the second document.
fn second_base(operation: Operation) -> Base {
    match operation {
        Operation::Windows => Base::Ten,
        _ => Base::Sixteen,
    }
}

// The longest second document. Only marking, worths, accounts and windows have one.
fn longest_second(operation: Operation) -> usize {
    match operation {
        Operation::Mark | Operation::Worth | Operation::Account | Operation::Windows => LONGEST,
        _ => 0,
    }
}

fn documents(text: &[u8], operation: Operation, list: &mut [u16], other: &mut [u16]) -> Lengths {
    Lengths {
        first: numbers(before(text, b'/'), first_base(operation), list),
        second: numbers(after(text, b'/'), second_base(operation), other),
    }
}

fn case_of(operation: Operation, room: usize, lengths: Lengths) -> Case {
    Case {
        operation,
        growers: 0,
        pilots: 0,
        room,
        first: lengths.first,
        second: lengths.second,
    }
}

fn case_of_parties(line: &[u8], operation: Operation, lengths: Lengths) -> Case {
    Case {
        operation,
        growers: number_at(line, 1),
        pilots: number_at(line, 2),
        room: number_at(line, 3),
        first: lengths.first,
        second: lengths.second,
    }
}

// A case with the numbers that stand before its documents.
fn with_numbers(line: &[u8], operation: Operation, lengths: Lengths) -> Case {
    match operation {
        Operation::Mark | Operation::Worth | Operation::Account | Operation::Numeral => {
            case_of(operation, 0, lengths)
        }
        Operation::Read | Operation::Write => case_of_parties(line, operation, lengths),
        _ => case_of(operation, number_at(line, 1), lengths),
    }
}

fn is_whole(case: Case) -> bool {
    let operation = case.operation;
    case.growers < NONE
        && case.pilots < NONE
        && case.room <= ROOM
        && case.first <= LONGEST
        && case.second <= longest_second(operation)
}

fn no_case() -> Case {
    case_of(
        Operation::Unknown,
        0,
        Lengths {
            first: 0,
            second: 0,
        },
    )
}

fn whole(case: Case) -> Case {
    if is_whole(case) { case } else { no_case() }
}

// Reads a line, its first document into `list` and its second into `other`. The operation is unknown if anything is not understood.
pub fn read(line: &[u8], list: &mut [u16], other: &mut [u16]) -> Case {
    let operation = named(before(line, b' '));
    let text = without_words(line, words_before(operation));
    let lengths = documents(text, operation, list, other);
    whole(with_numbers(line, operation, lengths))
}
