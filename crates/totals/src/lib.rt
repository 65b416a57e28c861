// What all hours of a settlement are worth together. Each answers on every input: of more than 16 growers or pilots, the first 16 count.
#![tactic(auto)]

ghost use Rattle.std.specs.Prelude.{◌≡◌, ℕ, ◌*◌, min, List, ltb};
ghost use Rattle.grid.specs.Grid.{Grid, at};
ghost use Rattle.grid.specs.Sum.{sum_square};
ghost use Rattle.market.specs.Tables.{ticket_in, settlement_in};
ghost use Rattle.market.specs.Totals.{promised_worth};

use numbers::{product, within};

// Whether some tariff cap is above 0.
pub fn has_tariff_deal(growers: usize, pilots: usize, tariff_cap: [[u16; 16]; 16]) -> bool
    ensures { result ≡ ltb 0 (sum_square (at tariff_cap) (min 16 growers) (min 16 pilots)) }
{
    let rows = within(growers);
    let columns = within(pilots);
    for i in 0..rows {
        for j in 0..columns {
            if 0 < tariff_cap[i][j] {
                return true;
            }
        }
    }
    false
}

// The joint gain of all hours in free deals. Both indices are needed: the cell (i, j) of two squares at once.
fn gain_total(
    growers: usize,
    pilots: usize,
    free_deal_hours: [[u16; 16]; 16],
    joint_gain: [[u16; 16]; 16],
) -> u64
    ensures { result ≡ sum_square (λ i j. at free_deal_hours i j * at joint_gain i j) (min 16 growers) (min 16 pilots) }
{
    let rows = within(growers);
    let columns = within(pilots);
    let mut total: u64 = 0;
    for i in 0..rows {
        for j in 0..columns {
            total += product(free_deal_hours[i][j], joint_gain[i][j]);
        }
    }
    total
}

// The worth that is given with a sound settlement: 0 where a tariff cap is above 0. It is that of every ticket and settlement that have
// these squares, since a free hour is worth nothing.
pub fn promised_worth(
    growers: usize,
    pilots: usize,
    tariff_cap: [[u16; 16]; 16],
    free_deal_hours: [[u16; 16]; 16],
    joint_gain: [[u16; 16]; 16],
) -> u64
    ensures { (grower_hours pilot_hours : List ℕ) (tariff_gain tariff_pay free_cap tariff_hours pay : Grid) → result ≡ promised_worth
        (ticket_in (min 16 growers) (min 16 pilots) grower_hours pilot_hours tariff_cap tariff_gain tariff_pay free_cap joint_gain)
        (settlement_in tariff_hours free_deal_hours pay).hours }
{
    if has_tariff_deal(growers, pilots, tariff_cap) {
        0
    } else {
        gain_total(growers, pilots, free_deal_hours, joint_gain)
    }
}
