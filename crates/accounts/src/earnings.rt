// What everybody earns over all his hours. What is said of a grower is said of a pilot too, whose rows are those of the squares on their
// side, and who gives nothing of his pay away.
ghost use Rattle.std.specs.Prelude.{◌≡◌, ℕ, ◌<◌, ◌≤◌, get_or, length};
ghost use Rattle.market.specs.Accounts.{grower_gain, pilot_pay};
ghost use Rattle.tables.specs.View.{growers_of, pilots_of, ticket_of, settlement_of};
ghost use Rattle.accounts.specs.Earnings.{earned_in, earned_at, Modest};

use grid::turned;
use numbers::product;
use tables::{Quantity, square};

// What a party earns over all its hours with so many partners.
fn earned(
    tariff_hours: [u16; 16],
    free_deal_hours: [u16; 16],
    tariff: [u16; 16],
    whole: [u16; 16],
    given: [u16; 16],
    partners: usize,
) -> u64
    requires { partners ≤ 16 }
    ensures { result ≡ earned_in tariff_hours free_deal_hours tariff whole given partners }
{
    let mut total: u64 = 0;
    // by index: the same place of five rows
    for l in 0..partners {
        let by_tariff = product(tariff_hours[l], tariff[l]);
        let share = whole[l].saturating_sub(given[l]);
        total += by_tariff + product(free_deal_hours[l], share);
    }
    total
}

fn no_earnings() -> [u64; 16]
    ensures { length result ≡ 16 }
{
    [0; 16]
}

// The same of all parties of one side, by their rows in five squares.
fn earnings(
    count: usize,
    partners: usize,
    tariff_hours: [[u16; 16]; 16],
    free_deal_hours: [[u16; 16]; 16],
    tariff: [[u16; 16]; 16],
    whole: [[u16; 16]; 16],
    given: [[u16; 16]; 16],
) -> [u64; 16]
    requires { (count ≤ 16) × (partners ≤ 16) }
    ensures { (p : ℕ) → p < count → get_or result p 0 ≡ earned_at tariff_hours free_deal_hours tariff whole given partners p }
{
    let mut all = no_earnings();
    // by index: the same row of five squares, and the place that it fills
    for p in 0..count {
        all[p] = earned(
            tariff_hours[p],
            free_deal_hours[p],
            tariff[p],
            whole[p],
            given[p],
            partners,
        );
    }
    all
}

// The growers' gains: of a joint gain they give the pay away.
pub(crate) fn gains(ticket: &[u16], settlement: &[u16]) -> [u64; 16]
    requires { Modest ticket.now settlement.now }
    ensures { (i : ℕ) → i < growers_of ticket.now →
        get_or result i 0 ≡ grower_gain (ticket_of ticket.now) (settlement_of settlement.now) i }
{
    earnings(
        tables::growers(ticket),
        tables::pilots(ticket),
        square(settlement, Quantity::TariffHours),
        square(settlement, Quantity::FreeDealHours),
        square(ticket, Quantity::TariffGain),
        square(ticket, Quantity::JointGain),
        square(settlement, Quantity::Pay),
    )
}

// The pilots' pays.
pub(crate) fn pays(ticket: &[u16], settlement: &[u16]) -> [u64; 16]
    requires { Modest ticket.now settlement.now }
    ensures { (j : ℕ) → j < pilots_of ticket.now →
        get_or result j 0 ≡ pilot_pay (ticket_of ticket.now) (settlement_of settlement.now) j }
{
    let n = tables::growers(ticket);
    let m = tables::pilots(ticket);
    earnings(
        m,
        n,
        turned(square(settlement, Quantity::TariffHours), n, m),
        turned(square(settlement, Quantity::FreeDealHours), n, m),
        turned(square(ticket, Quantity::TariffPay), n, m),
        turned(square(settlement, Quantity::Pay), n, m),
        grid::zeros(),
    )
}
