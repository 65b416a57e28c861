// Runs of drawn numbers written into a list.
ghost use Rattle.std.specs.Prelude.{◌≡◌, ◌+◌, ◌*◌, ◌≤◌, length};
ghost use Rattle.std.proofs.lemmas.List.Edits.{sets};
ghost use Rattle.checks.specs.Hours.{noted_all, none_of};
ghost use Rattle.draws.specs.Generator.{after};
ghost use Rattle.draws.specs.Drawn.{drawn_hours, drawn_pair, drawn_pairs};

use crate::generator::next;
use crate::values::{cap, hours, joint_amount, tariff_amount};
use checks::{noted, pair_has_none};

// Everybody's hours: the generator's number after them, and who has none.
#[derive(Clone, Copy)]
pub(crate) struct Filled {
    pub(crate) number: u32,
    pub(crate) without: u32,
}

pub(crate) fn fill_hours(list: &mut [u16], from: usize, count: usize, x: u32) -> Filled
    requires { from + count ≤ length list.old }
    ensures number_value { (result.number ≡ after count x) × (result.without ≡ noted_all 0 (drawn_hours count x)) }
    ensures list_after { list.new ≡ sets list.old from (drawn_hours count x) }
{
    let mut here = x;
    let mut without: u32 = 0;
    // By k: the generator goes from number to number while the list is written from a place on.
    for k in 0..count {
        let drawn = hours(here);
        list[from + k] = drawn;
        without = noted(without, usize::from(drawn));
        here = next(here);
    }
    Filled {
        number: here,
        without,
    }
}

fn fill_pair(list: &mut [u16], from: usize, none: bool, x: u32) -> u32
    requires { from + 5 ≤ length list.old }
    ensures value { result ≡ after 5 x }
    ensures list_after { list.new ≡ sets list.old from (drawn_pair none x) }
{
    let gain = next(x);
    let pay = next(gain);
    let free = next(pay);
    let joint = next(free);
    let tariff_cap = cap(none, x);
    let free_cap = cap(none, free);
    list[from] = tariff_cap;
    list[from + 1] = tariff_amount(tariff_cap, gain);
    list[from + 2] = tariff_amount(tariff_cap, pay);
    list[from + 3] = free_cap;
    list[from + 4] = joint_amount(free_cap, joint);
    next(joint)
}

pub(crate) fn fill_pairs(
    list: &mut [u16],
    from: usize,
    growers: u16,
    pilots: u16,
    count: usize,
    hours: Filled,
)
    requires { from + 5 * count ≤ length list.old }
    ensures { list.new ≡ sets list.old from
        (drawn_pairs (none_of hours.without growers pilots) 0 count hours.number) }
{
    let mut here = hours.number;
    // By k: the number of a pair says whose it is, and where its five numbers go.
    for k in 0..count {
        let none = pair_has_none(hours.without, growers, pilots, k);
        here = fill_pair(list, from + 5 * k, none, here);
    }
}
