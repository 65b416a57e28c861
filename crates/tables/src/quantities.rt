// Lists of numbers as squares and rows.
ghost use Rattle.std.specs.Prelude.{◌≡◌, ◌+◌, ◌*◌, ◌<◌, min, get_or};
ghost use Rattle.grid.specs.Fill.{FilledRow};
ghost use Rattle.tables.specs.View.{growers_of, pilots_of, place_of, Spreads, hours_of, parties_of, ticket_of, Holds, HoldsOver};
ghost use Rattle.tables.specs.View.{hours_place, ticket_front, settlement_front};

use crate::{Quantity, Side};

// Where a quantity stands: that of the first pair at `first`, that of each other pair `each` places after the last.
#[derive(Clone, Copy)]
struct Spread {
    first: usize,
    each: usize,
}

fn every(each: usize, first: usize) -> Spread
    ensures { (result.each ≡ each) × (result.first ≡ first) }
{
    Spread { first, each }
}

fn places(quantity: Quantity, n: usize, m: usize) -> Spread
    requires { (n < 65536) × (m < 65536) }
    ensures { Spreads quantity n m result.first result.each }
{
    let start = 3 + n + m;
    match quantity {
        Quantity::TariffCap => every(5, start),
        Quantity::TariffGain => every(5, start + 1),
        Quantity::TariffPay => every(5, start + 2),
        Quantity::FreeCap => every(5, start + 3),
        Quantity::JointGain => every(5, start + 4),
        Quantity::TariffHours => every(3, 3),
        Quantity::FreeDealHours => every(3, 4),
        Quantity::Pay => every(3, 5),
    }
}

// Where the quantities of grower i begin, among m pilots. The product is proved to fit here, once.
fn row_place(first: usize, each: usize, m: usize, i: usize) -> usize
    requires { (first < 200000) × (each < 6) × (m < 65536) × (i < 16) }
    ensures { (result ≡ first + each * (i * m)) × (result < 6000000) }
{
    first + each * (i * m)
}

// How many growers, and how many pilots, a list tells of.
pub fn growers(list: &[u16]) -> usize
    ensures { (result ≡ growers_of list.now) × (result < 65536) }
{
    usize::from(numbers::entry(list, 1))
}

pub fn pilots(list: &[u16]) -> usize
    ensures { (result ≡ pilots_of list.now) × (result < 65536) }
{
    usize::from(numbers::entry(list, 2))
}

// A product of two numbers of lists.
fn product(x: usize, y: usize) -> usize
    requires { (x < 65536) × (y < 65536) }
    ensures { (result ≡ x * y) × (result < 4294967296) }
{
    x * y
}

// Where a quantity of a pair stands.
pub fn place(list: &[u16], quantity: Quantity, i: u16, j: u16) -> usize
    ensures { result ≡ place_of quantity (growers_of list.now) (pilots_of list.now) i j }
{
    let m = pilots(list);
    let spread = places(quantity, growers(list), m);
    let pair = product(usize::from(i), m) + usize::from(j);
    spread.first + spread.each * pair
}

// Where a party's hours stand.
pub fn hours_place(list: &[u16], side: Side, party: u16) -> usize
    ensures { result ≡ hours_place side (growers_of list.now) party }
{
    match side {
        Side::Growers => 3 + usize::from(party),
        Side::Pilots => 3 + growers(list) + usize::from(party),
    }
}

// The numbers of a ticket, where others follow them, and those of a settlement.
pub fn ticket_front<'a>(list: &'a [u16]) -> &'a [u16]
    ensures { result.now ≡ ticket_front list.now }
{
    let n = growers(list);
    let m = pilots(list);
    numbers::front(list, 3 + n + m + 5 * product(n, m))
}

pub fn settlement_front<'a>(list: &'a [u16]) -> &'a [u16]
    ensures { result.now ≡ settlement_front list.now }
{
    numbers::front(list, 3 + 3 * product(growers(list), pilots(list)))
}

// Writes a quantity of every pair into a lent square, growers by pilots, as far as the square reaches. Its other cells stay as they are.
// The copy only tells the proof that a square is lent.
pub fn fill(list: &[u16], quantity: Quantity, into: &mut [[u16; 16]; 16])
    ensures { HoldsOver into.old quantity list.now into.new }
{
    let _before = grid::copied(&*into);
    let n = growers(list);
    let m = pilots(list);
    let rows = numbers::within(n);
    let columns = numbers::within(m);
    let spread = places(quantity, n, m);
    let each = spread.each;
    // Both indices are needed: a cell stands where its pair does, and the place goes on over a whole row of pilots.
    for i in 0..rows {
        let mut place = row_place(spread.first, each, m, i);
        for j in 0..columns {
            into[i][j] = numbers::entry(list, place);
            place = place + each;
        }
    }
}

// The same in a square of its own: 0 in all other cells.
pub fn square(list: &[u16], quantity: Quantity) -> [[u16; 16]; 16]
    ensures { Holds quantity list.now result }
{
    let mut q = grid::zeros();
    fill(list, quantity, &mut q);
    q
}

// The first `count` numbers from a place on, as far as the row reaches.
fn row(list: &[u16], from: usize, count: usize) -> [u16; 16]
    requires { from < 200000 }
    ensures { FilledRow (λ i. get_or list.now (from + i) 0) (min 16 count) result }
{
    let end = numbers::within(count);
    let mut r = grid::zero_row();
    // By i: a list that is too short has 0 there, which a slice of it has not.
    for i in 0..end {
        r[i] = numbers::entry(list, from + i);
    }
    r
}

// Everybody's own hours on a side.
pub fn hours(ticket: &[u16], side: Side) -> [u16; 16]
    ensures { FilledRow (hours_of side (ticket_of ticket.now)) (min 16 (parties_of side (ticket_of ticket.now))) result }
{
    match side {
        Side::Growers => row(ticket, 3, growers(ticket)),
        Side::Pilots => row(ticket, 3 + growers(ticket), pilots(ticket)),
    }
}
