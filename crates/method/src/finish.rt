// The start and the end: no hours and no prices; then prices in whole euros, and what everybody flies.
ghost use Rattle.std.specs.Prelude.{◌≡◌, ℕ, ◌<◌, ◌≤◌, length};
ghost use Rattle.market.specs.declared.Deal.{Deal};
ghost use Rattle.market.specs.Method.{hours_of};
ghost use Rattle.offers.specs.Limits.{top_price};
ghost use Rattle.method.specs.View.{line, agreed_in, agreed_at, no_hours, held_in};
ghost use Rattle.method.specs.Changes.{Full};
ghost use Rattle.method.specs.Result.{pay_at, Flown};

use crate::arith::narrow;
use euros::whole_euros;
use grid::Sides;
use offers::Agreed;

pub(crate) fn zero_prices() -> [u32; 16]
    ensures { (length result ≡ 16) × ((j : ℕ) → line result j ≡ 0) }
{
    [0u32; 16]
}

fn no_hours_of_grower() -> [Agreed; 16]
    ensures { (length result ≡ 16) × ((j : ℕ) → agreed_in result j ≡ no_hours) }
{
    let none = Agreed {
        by_tariff: 0,
        old_free: 0,
        new_free: 0,
    };
    [none; 16]
}

pub(crate) fn no_hours() -> [[Agreed; 16]; 16]
    ensures { Full result × ((i j : ℕ) → agreed_at result i j ≡ no_hours) }
{
    let row = no_hours_of_grower();
    [row; 16]
}

// The pay for a free-deal hour, 0 where the pair has none.
fn pay_for(hours: u16, price: u32, shift: u32) -> u16
    requires { (price ≤ top_price) × (shift ≤ 16) }
    ensures { result ≡ pay_at price shift hours }
{
    if 0 < hours {
        narrow(whole_euros(price, shift))
    } else {
        0
    }
}

// Writes the hours that everybody flies, and returns the pay. The copies only tell the proof that squares are lent. Both indices are
// needed: the cell (i, j) of four squares at once.
pub(crate) fn write_flown(
    sides: Sides,
    held: [[Agreed; 16]; 16],
    price: [u32; 16],
    shift: u32,
    tariff_hours: &mut [[u16; 16]; 16],
    free_deal_hours: &mut [[u16; 16]; 16],
) -> [[u16; 16]; 16]
    requires bounds { (shift ≤ 16) × ((j : ℕ) → j < sides.pilots → line price j ≤ top_price) }
    requires j_bound { (d : Deal) (i j : ℕ) → i < sides.growers → j < sides.pilots → hours_of (held_in held) d i j < 65536 }
    ensures { Flown held price shift sides.growers sides.pilots tariff_hours.old free_deal_hours.old
        tariff_hours.new free_deal_hours.new result }
{
    let _by_tariff = grid::copied(&*tariff_hours);
    let _free = grid::copied(&*free_deal_hours);
    let mut pay = grid::zeros();
    for i in 0..sides.growers {
        for j in 0..sides.pilots {
            let agreed = held[i][j];
            let free = agreed.old_free + agreed.new_free;
            tariff_hours[i][j] = agreed.by_tariff;
            free_deal_hours[i][j] = free;
            pay[i][j] = pay_for(free, price[j], shift);
        }
    }
    pay
}
