// Runs the cases that standard input lists, one to a line, and prints each with its answer. The file `stdin` says at its head how they
// are written. Its length is printed last, since no more than 65,536 bytes are read.
#![tactic(auto)]

mod answer;
mod narrowing;
mod reading;
mod settling;
mod writing;

use answer::{judged, with_worth};
use narrowing::narrow;
use reading::{read, unpack};
use script::{Case, Operation, Tally, after, as_bytes, before, counted, no_numbers};
use settling::{account, settle, sheet};
use writing::{numeral, pack, write};

const STANDARD_INPUT: i32 = 0;

// Runs a case, on each of its documents as a list and as a file. False if it is none.
fn run(case: Case, list: &[u16], file: &[u8], other: &[u16], other_file: &[u8]) -> bool {
    let operation = case.operation;
    match operation {
        Operation::Unpack => unpack(file, case.room),
        Operation::Pack => pack(list, case.room),
        Operation::Read => read(file, case.growers, case.pilots, case.room),
        Operation::Write => write(list, case.growers, case.pilots, case.room),
        Operation::Mark => judged(marker::mark(file, other_file)),
        Operation::Worth => with_worth(marker::mark(file, other_file)),
        Operation::Account => account(file, other_file),
        Operation::Settle => settle(file, case.room),
        Operation::Sheet => sheet(file, case.room),
        Operation::Windows => narrow(file, other, case.room),
        Operation::Numeral => numeral(list),
        Operation::Unknown => {
            report::not_understood();
            return false;
        }
    }
    true
}

fn run_line(line: &[u8]) -> bool {
    let mut list = no_numbers();
    let mut other = no_numbers();
    let case = script::read(line, &mut list, &mut other);
    let file = as_bytes(&list);
    let other_file = as_bytes(&other);
    run(
        case,
        numbers::front(&list, case.first),
        ascii::front(&file, case.first),
        numbers::front(&other, case.second),
        ascii::front(&other_file, case.second),
    )
}

fn with_line(line: &[u8], tally: Tally) -> Tally {
    report::echo(line);
    if script::is_remark(line) {
        return tally;
    }
    counted(tally, run_line(line))
}

fn all(input: &[u8]) -> Tally {
    let mut rest = input;
    let mut tally = script::nothing_counted();
    while 0 < rest.len() {
        tally = with_line(before(rest, b'\n'), tally);
        rest = after(rest, b'\n');
    }
    tally
}

fn summary(length: usize, tally: Tally) {
    report::line(length, b"bytes read");
    report::line(tally.cases, b"cases");
    report::line(tally.unknown, b"not understood");
}

fn main() {
    let mut input = io::large_buffer();
    let length = io::read_full(STANDARD_INPUT, &mut input);
    summary(length, all(&input[..length]));
}
