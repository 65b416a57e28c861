// The guess, the settler and the test of certificates, on rows and squares made of a ticket's list of numbers. The guess and the settler
// are given the pilots of another ticket, which may have fewer, and write its settlement.
use super::files::{pilots, settlement};
use tables::{Quantity, Side, square};

// Writes the file of a guess, and answers whether it is certified.
pub(crate) fn guess(ticket: &[u8], list: &[u16], lent: &mut [u8; 15]) -> bool {
    let mut tariff_hours = grid::zeros();
    let mut free_deal_hours = grid::zeros();
    let mut pay = grid::zeros();
    let certified = guess::guess(
        tables::growers(list),
        pilots(ticket),
        tables::hours(list, Side::Growers),
        tables::hours(list, Side::Pilots),
        square(list, Quantity::TariffCap),
        square(list, Quantity::TariffGain),
        square(list, Quantity::TariffPay),
        square(list, Quantity::FreeCap),
        square(list, Quantity::JointGain),
        &mut tariff_hours,
        &mut free_deal_hours,
        &mut pay,
    );
    *lent = settlement(ticket, tariff_hours, free_deal_hours, pay);
    certified
}

pub(crate) fn settled(ticket: &[u8], list: &[u16]) -> [u8; 15] {
    let mut tariff_hours = grid::zeros();
    let mut free_deal_hours = grid::zeros();
    let mut pay = grid::zeros();
    settler::settle_squares(
        tables::growers(list),
        pilots(ticket),
        tables::hours(list, Side::Growers),
        tables::hours(list, Side::Pilots),
        square(list, Quantity::TariffCap),
        square(list, Quantity::TariffGain),
        square(list, Quantity::TariffPay),
        square(list, Quantity::FreeCap),
        square(list, Quantity::JointGain),
        &mut tariff_hours,
        &mut free_deal_hours,
        &mut pay,
    );
    settlement(ticket, tariff_hours, free_deal_hours, pay)
}

pub(crate) fn is_certified(list: &[u16], settlement: &[u16]) -> bool {
    certificate::certified(
        tables::growers(list),
        tables::pilots(list),
        tables::hours(list, Side::Growers),
        tables::hours(list, Side::Pilots),
        square(list, Quantity::TariffCap),
        square(list, Quantity::TariffGain),
        square(list, Quantity::TariffPay),
        square(list, Quantity::FreeCap),
        square(list, Quantity::JointGain),
        square(settlement, Quantity::TariffHours),
        square(settlement, Quantity::FreeDealHours),
        square(settlement, Quantity::Pay),
    )
}
