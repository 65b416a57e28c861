// The lines of the pairs that have any hours, in the ticket's order.
ghost use Rattle.std.specs.Prelude.{◌≡◌, ◌&&◌, ℕ, ◌+◌, ◌*◌, ◌<◌, ◌≤◌, eqb, length, get_or};
ghost use Rattle.grid.specs.Grid.{at};
ghost use Rattle.sheets.specs.Page.{page_bytes};
ghost use Rattle.ascii.specs.Writing.{Wrote};
ghost use Rattle.sheets.specs.Sheet.{grower_share, line_if_hours, pair_lines};
ghost use Rattle.sheets.specs.Squares.{numbers_in, line_in, Printable};

use crate::lines::amounts;
use grid::cell;

// A grower or a pilot, as a number of the line.
fn party(x: usize) -> u16
    requires { x < 16 }
    ensures { result ≡ x }
{
    // `as` is proved to lose nothing here; `try_from` would ask for an answer that is never given.
    x as u16
}

// What the grower has of a free-deal hour; 0 without any.
fn grower_share(hours: u16, gain: u16, pay: u16) -> u16
    ensures { result ≡ grower_share hours gain pay }
{
    if hours == 0 {
        return 0;
    }
    gain.saturating_sub(pay)
}

fn pair_numbers(
    i: usize,
    j: usize,
    tariff_hours: [[u16; 16]; 16],
    tariff_gain: [[u16; 16]; 16],
    tariff_pay: [[u16; 16]; 16],
    free_deal_hours: [[u16; 16]; 16],
    joint_gain: [[u16; 16]; 16],
    pay: [[u16; 16]; 16],
) -> [u16; 8]
    requires { (i < 16) × (j < 16) }
    ensures { result ≡ numbers_in tariff_hours tariff_gain tariff_pay free_deal_hours joint_gain pay i j }
{
    let hours = cell(free_deal_hours, i, j);
    let share = cell(pay, i, j);
    [
        party(i),
        party(j),
        cell(tariff_hours, i, j),
        cell(tariff_gain, i, j),
        cell(tariff_pay, i, j),
        hours,
        grower_share(hours, cell(joint_gain, i, j), share),
        share,
    ]
}

fn no_hours(tariff: u16, free: u16) -> bool
    ensures { result ≡ (eqb tariff 0 && eqb free 0) }
{
    tariff == 0 && free == 0
}

// The line of a pair, if it has any hours.
fn pair_line(page: &mut [u8; 8216], at: usize, numbers: &[u16; 8]) -> usize
    requires { (length numbers.now ≡ 8) × ((k : ℕ) → get_or numbers.now k 0 ≤ 500) × (at + 32 ≤ page_bytes) }
    ensures { Wrote page.old page.new at result
        (line_if_hours (get_or numbers.now 2 0) (get_or numbers.now 5 0) numbers.now) }
{
    if no_hours(numbers[2], numbers[5]) {
        return at;
    }
    amounts(page, at, numbers)
}

// The lines of all pairs of so many growers and pilots.
pub(crate) fn pair_lines(
    page: &mut [u8; 8216],
    at: usize,
    growers: usize,
    pilots: usize,
    tariff_hours: [[u16; 16]; 16],
    tariff_gain: [[u16; 16]; 16],
    tariff_pay: [[u16; 16]; 16],
    free_deal_hours: [[u16; 16]; 16],
    joint_gain: [[u16; 16]; 16],
    pay: [[u16; 16]; 16],
) -> usize
    requires growers_bound { (growers ≤ 16) × (pilots ≤ 16) × (at + 8192 ≤ page_bytes) }
    requires printable { Printable growers pilots (numbers_in tariff_hours tariff_gain tariff_pay free_deal_hours joint_gain pay) }
    ensures { Wrote page.old page.new at result
        (pair_lines (line_in tariff_hours tariff_gain tariff_pay free_deal_hours joint_gain pay) pilots (growers * pilots)) }
{
    let end = numbers::pairs(growers, pilots);
    let mut here = at;
    // By number: p says which grower and which pilot.
    for p in 0..end {
        let numbers = pair_numbers(
            p / pilots,
            p % pilots,
            tariff_hours,
            tariff_gain,
            tariff_pay,
            free_deal_hours,
            joint_gain,
            pay,
        );
        here = pair_line(page, here, &numbers);
    }
    here
}
