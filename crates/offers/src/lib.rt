// What the deals of one pair offer its grower at the pilot's price, which of its hours are late, and how far it bears a rise of that
// price. Each function answers on every input.
#![tactic(auto)]

mod chances;
mod late;
mod limits;

pub use chances::{better_deal, free_chance, greater_chance};
pub use late::late_here;
pub use limits::{outside, pilot_slack, tariff_slack, worth_here};

// Above 18 times every amount: no price rises higher.
pub const TOP: u32 = 1179631;

// More than any hour is worth.
pub const MANY: u32 = 2000000;

// What the ticket says of a grower and a pilot: caps in hours, amounts in euros per hour.
#[derive(Clone, Copy)]
pub struct Terms {
    pub tariff_cap: u16,
    pub tariff_gain: u16,
    pub tariff_pay: u16,
    pub free_cap: u16,
    pub joint_gain: u16,
}

// The hours that a grower and a pilot hold: by the tariff, and in the free deal the old ones, agreed before the last rise of the
// pilot's price, and the new ones.
#[derive(Clone, Copy)]
pub struct Agreed {
    pub by_tariff: u16,
    pub old_free: u16,
    pub new_free: u16,
}
