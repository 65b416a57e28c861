// Where a refusal of a document is: the first number with which what was read so far is refused for more than ending early.
#![tactic(auto)]

ghost use Rattle.std.specs.Prelude.{◌≡◌};
ghost use Rattle.places.specs.Places.{faulty, place_in, number_of, beginning_of};

mod reading; // reading.rt: the numbers that bytes begin with, and the bytes that numbers take

use checks::{Document, refusals_of};
use numbers::front;
use reading::{bytes_of, fill, room};
use scanning::scan;

// Whether a list is refused, and not because it ends early.
fn faulty(document: Document, list: &[u16]) -> bool
    ensures { result ≡ faulty document list.now }
{
    scan(document, list).is_err_and(|why| why != refusals_of(document).ends)
}

// The place of the first fault of a list, numbers counted from 0; the list's length if there is none.
pub fn of_list(document: Document, list: &[u16]) -> usize
    ensures { result ≡ place_in document list.now }
{
    // By k: the beginning that ends with each number is tried.
    for k in 0..list.len() {
        if faulty(document, front(list, k + 1)) {
            return k;
        }
    }
    list.len()
}

// A place in bytes: the number, counted from 0, and the byte at which it begins.
#[derive(Clone, Copy)]
pub struct Place {
    pub number: usize,
    pub byte: usize,
}

// The place of the first fault of the numbers that bytes begin with; after the last of them if there is none.
pub fn of_bytes(document: Document, s: &[u8]) -> Place
    ensures number_value { result.number ≡ number_of document s.now }
    ensures byte_value { result.byte ≡ beginning_of s.now (number_of document s.now) }
{
    let mut own = room();
    let count = fill(s, &mut own);
    let list = front(&own, count);
    let number = of_list(document, list);
    let byte = bytes_of(front(list, number));
    Place { number, byte }
}
