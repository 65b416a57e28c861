// The hours that growers and pilots have in common.
ghost use Rattle.std.specs.Prelude.{◌≡◌, ◌<◌, ◌≤◌, min, length};
ghost use Rattle.grid.specs.Fill.{Filled};
ghost use Rattle.week.specs.Week.{covered, Marks};
ghost use Rattle.window_lists.specs.Windows.{windows_of, common_hours, WeeksOf};

use crate::places::{party_place, window_at};
use numbers::{entry, within};

// The hours of a party's windows. By number: the list may end before the last of them.
fn week_of(list: &[u16], party: usize) -> [bool; 168]
    requires { party < 131072 }
    ensures { Marks (covered (windows_of list.now party)) result }
{
    let place = party_place(list, party);
    let count = usize::from(entry(list, place));
    let mut marked = week::no_hours();
    for w in 0..count {
        let window = window_at(list, place, w);
        let more = week::with_stretch(marked, window.first, window.closing);
        marked = more;
    }
    marked
}

// Room for the hours of 16 parties.
fn no_weeks() -> [[bool; 168]; 16]
    ensures { length result ≡ 16 }
{
    [[false; 168]; 16]
}

// The hours of some parties' windows, one after another. By number: that of a party says where its windows stand.
fn weeks_from(list: &[u16], party: usize, count: usize) -> [[bool; 168]; 16]
    requires { (party < 65536) × (count ≤ 16) }
    ensures { WeeksOf list.now party count result }
{
    let mut weeks = no_weeks();
    for k in 0..count {
        let week = week_of(list, party + k);
        weeks[k] = week;
    }
    weeks
}

// The hours that each grower has in common with each pilot, as far as a square reaches, and 0 elsewhere. Both indices are needed: the
// cell (i, j) is of the weeks i and j.
pub fn common_hours(list: &[u16], growers: u16, pilots: u16) -> [[u16; 16]; 16]
    ensures { Filled (common_hours list.now growers) (min 16 growers) (min 16 pilots) result }
{
    let rows = within(usize::from(growers));
    let columns = within(usize::from(pilots));
    let grower_weeks = weeks_from(list, 0, rows);
    let pilot_weeks = weeks_from(list, usize::from(growers), columns);
    let mut square = grid::zeros();
    for i in 0..rows {
        for j in 0..columns {
            square[i][j] = week::common(&grower_weeks[i], &pilot_weeks[j]);
        }
    }
    square
}
