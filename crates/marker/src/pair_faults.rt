// The walk over pairs: verdicts 2 to 4.
ghost use Rattle.std.specs.Prelude.{◌≡◌, ◌*◌, ◌≤◌, []};
ghost use Rattle.market.specs.Tables.{ticket_in, settlement_in};
ghost use Rattle.marker.specs.Verdict.{by_pair, pair_verdict, pair_fault_at};
ghost use Rattle.marker.specs.Tables.{first_found};

use grid::Sides;
use verdicts::{Verdict, pair_fault};

// The first walk: the first pair at fault.
pub(crate) fn first_pair_fault(
    sides: Sides,
    tariff_cap: [[u16; 16]; 16],
    free_cap: [[u16; 16]; 16],
    joint_gain: [[u16; 16]; 16],
    tariff_hours: [[u16; 16]; 16],
    free_deal_hours: [[u16; 16]; 16],
    pay: [[u16; 16]; 16],
) -> Option<Verdict>
    ensures { result ≡ first_found
        (pair_fault_at (ticket_in sides.growers sides.pilots [] [] tariff_cap [] [] free_cap joint_gain) (settlement_in tariff_hours free_deal_hours pay)) (sides.growers * sides.pilots)
        (by_pair (pair_verdict (ticket_in sides.growers sides.pilots [] [] tariff_cap [] [] free_cap joint_gain) (settlement_in tariff_hours free_deal_hours pay)) sides.pilots) }
{
    // by index: the cell (i, j) of six squares at once, and a fault names it
    for i in 0..sides.growers {
        for j in 0..sides.pilots {
            let found = pair_fault(
                i,
                j,
                tariff_hours[i][j],
                tariff_cap[i][j],
                free_deal_hours[i][j],
                free_cap[i][j],
                pay[i][j],
                joint_gain[i][j],
            );
            if let Some(verdict) = found {
                return Some(verdict);
            }
        }
    }
    None
}
