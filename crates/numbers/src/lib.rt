// Numbers and lists of numbers: how many, how wide, and where. Nearly every crate needs these; each answers on every input.
#![tactic(auto)]

mod lists;

ghost use Rattle.std.specs.Prelude.{◌≡◌, ◌*◌, ◌-◌, ◌<◌, max, min};

pub use lists::{entry, front, settlement_list, ticket_list};

// How many growers, and how many pilots, a square has room for.
pub const SIDE: usize = 16;

// As many of so many growers, or pilots, as a square has room for.
pub fn within(count: usize) -> usize
    ensures { (result ≡ min 16 count) × (result < 17) }
{
    count.min(SIDE)
}

// How many pairs those make. The product is proved to fit here, once.
pub fn pairs(growers: usize, pilots: usize) -> usize
    ensures { (result ≡ min 16 growers * min 16 pilots) × (growers < 17 → pilots < 17 → result ≡ growers * pilots) × (result < 257) }
{
    within(growers) * within(pilots)
}

// A product, at a width in which 2^32 of them can be added.
pub fn product(x: u16, y: u16) -> u64
    ensures { (result ≡ x * y) × (result < 4294967296) }
{
    u64::from(u32::from(x) * u32::from(y))
}

// What is left of a number when a wide one is taken from it.
pub fn left(x: u16, y: u32) -> u16
    ensures { result ≡ x - y }
{
    u32::from(x).saturating_sub(y) as u16
}
