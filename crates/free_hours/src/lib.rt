// Everybody's free hours: his own, less those in the deals of a settlement. Every function answers on every two lists, for as many growers
// and pilots as a row has room for.
#![tactic(auto)]

ghost use Rattle.std.specs.Prelude.{◌≡◌, ◌-◌, ◌<◌};
ghost use Rattle.tables.specs.View.{ticket_of, first_sixteen, across, parties_of, hours_of, settlement_of};
ghost use Rattle.free_hours.specs.FreeHours.{pair_hours, hours_with, free_of, RowOf};

use numbers::entry;
use tables::Quantity;
pub use tables::Side;

// Those with whom a side has its deals.
fn across(side: Side) -> Side
    ensures { result ≡ across side }
{
    match side {
        Side::Growers => Side::Pilots,
        Side::Pilots => Side::Growers,
    }
}

// How many there are, as far as a row reaches.
fn parties(ticket: &[u16], side: Side) -> usize
    ensures { (result ≡ parties_of side (first_sixteen (ticket_of ticket.now))) × (result < 17) }
{
    match side {
        Side::Growers => numbers::within(tables::growers(ticket)),
        Side::Pilots => numbers::within(tables::pilots(ticket)),
    }
}

// A party's own hours.
fn hours_of(ticket: &[u16], side: Side, party: u16) -> u16
    ensures { result ≡ hours_of side (first_sixteen (ticket_of ticket.now)) party }
{
    entry(ticket, tables::hours_place(ticket, side, party))
}

// What is left of somebody's hours after those of grower i and pilot j.
fn less_pair(hours: u16, settlement: &[u16], i: u16, j: u16) -> u16
    ensures { result ≡ hours - pair_hours (settlement_of settlement.now) i j }
{
    let tariff = entry(
        settlement,
        tables::place(settlement, Quantity::TariffHours, i, j),
    );
    let in_free_deal = entry(
        settlement,
        tables::place(settlement, Quantity::FreeDealHours, i, j),
    );
    hours.saturating_sub(tariff).saturating_sub(in_free_deal)
}

// The same by a party and its partner.
fn less_partner(hours: u16, settlement: &[u16], side: Side, party: u16, partner: u16) -> u16
    ensures { result ≡ hours - hours_with side (settlement_of settlement.now) party partner }
{
    match side {
        Side::Growers => less_pair(hours, settlement, party, partner),
        Side::Pilots => less_pair(hours, settlement, partner, party),
    }
}

// A party's hours, less those in all its deals.
fn free_of(ticket: &[u16], settlement: &[u16], side: Side, party: u16) -> u16
    ensures { result ≡ free_of side (first_sixteen (ticket_of ticket.now)) (settlement_of settlement.now) party }
{
    let end = parties(ticket, across(side));
    let mut free = hours_of(ticket, side, party);
    // By number: the pair's hours stand at a place that both numbers give. A number below 17 fits in `u16`.
    for partner in 0..end {
        free = less_partner(free, settlement, side, party, partner as u16);
    }
    free
}

// The free hours of all growers, or of all pilots, and 0 beyond the last.
pub fn of_side(ticket: &[u16], settlement: &[u16], side: Side) -> [u16; 16]
    ensures { RowOf side (first_sixteen (ticket_of ticket.now)) (settlement_of settlement.now) result }
{
    let end = parties(ticket, side);
    let mut row = grid::zero_row();
    // By number, which `free_of` takes.
    for party in 0..end {
        row[party] = free_of(ticket, settlement, side, party as u16);
    }
    row
}
