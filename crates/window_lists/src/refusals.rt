// The refusal of a list of windows, party by party.
ghost use Rattle.std.specs.Prelude.{◌≡◌, ◌+◌, ◌<◌};
ghost use Rattle.grid.specs.Every.{every};
ghost use Rattle.window_lists.specs.Windows.{place_limit};
ghost use Rattle.window_lists.specs.WindowRefusals.{window_passes, party_refusal, windows_refusal};

use crate::places::{next_place, window_at};
use checks::{Refusal, must};
use numbers::entry;

// A party has at most so many windows.
const MOST: usize = 8;

// Whether so many windows of a party have hours of the week and rise. By number: the list may end before the last of them.
fn rise(list: &[u16], place: usize, count: usize) -> bool
    requires { (place < place_limit) × (count < 65536) }
    ensures { result ≡ every (window_passes list.now place) count }
{
    let mut ok = true;
    let mut closed: u16 = 0;
    for w in 0..count {
        let window = window_at(list, place, w);
        ok = ok & (week::is_in_week(window.first, window.closing) & (closed <= window.first));
        closed = window.closing;
    }
    ok
}

// The refusal of the party whose count stands at this place.
fn party_refusal(list: &[u16], place: usize) -> Result<(), Refusal>
    requires { place < place_limit }
    ensures { result ≡ party_refusal list.now place }
{
    let count = usize::from(entry(list, place));
    if MOST < count {
        return Err(Refusal::NotWindows);
    }
    if list.len() < next_place(list, place) {
        return Err(Refusal::NotWindows);
    }
    must(rise(list, place, count), Refusal::BadWindow)
}

// The refusal of a list of so many growers and pilots, if there is one.
pub fn refusal(list: &[u16], growers: u16, pilots: u16) -> Result<(), Refusal>
    ensures { result ≡ windows_refusal list.now (growers + pilots) }
{
    let parties = usize::from(growers) + usize::from(pilots);
    let mut place: usize = 0;
    for k in 0..parties {
        party_refusal(list, place)?;
        place = next_place(list, place);
    }
    must(place == list.len(), Refusal::NotWindows)
}
