// Where the windows of a party stand in a list.
ghost use Rattle.std.specs.Prelude.{◌≡◌, ◌+◌, ◌*◌, ◌<◌, ◌≤◌};
ghost use Rattle.window_lists.specs.Windows.{next_place, party_place, window_at, place_limit};

use numbers::entry;

// A window: its first hour, and its closing hour, which itself is outside.
#[derive(Clone, Copy)]
pub(crate) struct Window {
    pub(crate) first: u16,
    pub(crate) closing: u16,
}

// Where the next party's count stands, if a party's stands at this place.
pub(crate) fn next_place(list: &[u16], place: usize) -> usize
    requires { place < place_limit }
    ensures { (result ≡ next_place list.now place) × (result ≤ place + 131071) }
{
    place + 1 + 2 * usize::from(entry(list, place))
}

// Where the count of a party stands.
pub(crate) fn party_place(list: &[u16], party: usize) -> usize
    requires { party < 131072 }
    ensures { (result ≡ party_place list.now party) × (result < place_limit) }
{
    let mut place: usize = 0;
    for k in 0..party {
        place = next_place(list, place);
    }
    place
}

// A window of the party whose count stands at this place.
pub(crate) fn window_at(list: &[u16], place: usize, window: usize) -> Window
    requires { (place < place_limit) × (window < 65536) }
    ensures first_value { result.first ≡ (window_at list.now place window).first }
    ensures closing_value { result.closing ≡ (window_at list.now place window).closing }
{
    Window {
        first: entry(list, place + 1 + 2 * window),
        closing: entry(list, place + 2 + 2 * window),
    }
}
