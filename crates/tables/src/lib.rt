// A ticket's numbers and a settlement's as rows and squares, one for each quantity. Each function answers on every input, as far as a
// square reaches.
#![tactic(auto)]

mod quantities;

pub use quantities::{
    fill, growers, hours, hours_place, pilots, place, settlement_front, square, ticket_front,
};

// What a square of growers by pilots holds: five quantities of a ticket, three of a settlement.
#[derive(Clone, Copy, Debug, PartialEq, Eq)]
pub enum Quantity {
    TariffCap,
    TariffGain,
    TariffPay,
    FreeCap,
    JointGain,
    TariffHours,
    FreeDealHours,
    Pay,
}

// The growers, or the pilots.
#[derive(Clone, Copy, Debug, PartialEq, Eq)]
pub enum Side {
    Growers,
    Pilots,
}
