// The settling of a ticket's file: its numbers are read, the market that they mean is settled, and the settlement is written.
#![tactic(auto)]

mod listing;
mod squares;

ghost use Rattle.settler.specs.Settled.{Settled};
ghost use Rattle.settler.specs.SettledList.{SettledList};
ghost use Rattle.settler.specs.Numbers.{IsTicket, AnswersNumbers};

use checks::Refusal;
use listing::list_settlement;
pub use squares::settle_squares;
use tables::{Quantity, Side};

// The numbers of a sound settlement of the market that a ticket's numbers mean, whatever they are; of at most 16 growers and 16 pilots.
// Its squares are filled where they stand: a square that is returned is copied.
pub fn settle_list(ticket: &[u16]) -> [u16; 771]
    ensures { SettledList ticket.now result }
{
    let growers = numbers::within(tables::growers(ticket));
    let pilots = numbers::within(tables::pilots(ticket));
    let grower_hours = tables::hours(ticket, Side::Growers);
    let pilot_hours = tables::hours(ticket, Side::Pilots);
    let mut tariff_cap = grid::zeros();
    tables::fill(ticket, Quantity::TariffCap, &mut tariff_cap);
    let mut tariff_gain = grid::zeros();
    tables::fill(ticket, Quantity::TariffGain, &mut tariff_gain);
    let mut tariff_pay = grid::zeros();
    tables::fill(ticket, Quantity::TariffPay, &mut tariff_pay);
    let mut free_cap = grid::zeros();
    tables::fill(ticket, Quantity::FreeCap, &mut free_cap);
    let mut joint_gain = grid::zeros();
    tables::fill(ticket, Quantity::JointGain, &mut joint_gain);
    let mut tariff_hours = grid::zeros();
    let mut free_deal_hours = grid::zeros();
    let mut pay = grid::zeros();
    settle_squares(
        growers,
        pilots,
        grower_hours,
        pilot_hours,
        tariff_cap,
        tariff_gain,
        tariff_pay,
        free_cap,
        joint_gain,
        &mut tariff_hours,
        &mut free_deal_hours,
        &mut pay,
    );
    let mut list = numbers::settlement_list();
    list_settlement(
        &mut list,
        growers,
        pilots,
        &tariff_hours,
        &free_deal_hours,
        &pay,
    );
    list
}

// Settles a ticket's numbers into a lent buffer, which must have room for the longest settlement that the ticket could have.
fn settle_numbers(ticket: &[u16], settlement: &mut [u8]) -> Result<usize, Refusal>
    requires { IsTicket ticket.now }
    ensures { AnswersNumbers ticket.now settlement.old settlement.new result }
{
    let growers = tables::growers(ticket);
    let pilots = tables::pilots(ticket);
    let pairs = numbers::pairs(growers, pilots);
    if settlement.len() < 3 + 4 * pairs {
        return Err(Refusal::NoRoom);
    }
    let list = settle_list(ticket);
    reader::write_settlement(tables::settlement_front(&list), growers, pilots, settlement)
}

// Writes a sound settlement of a ticket at the front of a lent buffer, and returns its length in bytes.
pub fn settle(ticket: &[u8], settlement: &mut [u8]) -> Result<usize, Refusal>
    ensures { Settled ticket.now settlement.old settlement.new result }
{
    let mut numbers = numbers::ticket_list();
    let count = reader::unpack(ticket, &mut numbers)?;
    settle_numbers(numbers::front(&numbers, count), settlement)
}
