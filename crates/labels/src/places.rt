// Where the number at a place of a document stands in a text of it: on which line, and after how many others.
ghost use Rattle.std.specs.Prelude.{◌≡◌, ◌+◌, ◌/◌, ◌%◌, ◌<◌};
ghost use Rattle.labels.specs.Spots.{hours_of, columns, party_spot, pair_spot, spot_of};

// Which document a text is of.
#[derive(Clone, Copy, Debug, PartialEq, Eq)]
pub enum Layout {
    Ticket,
    Settlement,
}

// The first line; then one for each grower, each pilot, and each pair.
#[derive(Clone, Copy, Debug, PartialEq, Eq)]
pub enum Line {
    Head,
    Grower { number: usize },
    Pilot { number: usize },
    Pair { grower: usize, pilot: usize },
}

// Where a number stands in a text.
#[derive(Clone, Copy, Debug, PartialEq, Eq)]
pub struct Spot {
    pub line: Line,
    pub column: usize,
}

// The numbers of the first line: kind, growers and pilots.
const HEAD: usize = 3;

// How many numbers stand between the first line and the pairs.
fn hours_of(layout: Layout, growers: usize, pilots: usize) -> usize
    requires { growers + pilots < 131072 }
    ensures { result ≡ hours_of layout growers pilots }
{
    match layout {
        Layout::Ticket => growers + pilots,
        Layout::Settlement => 0,
    }
}

// How many numbers a pair has.
fn columns(layout: Layout) -> usize
    ensures { result ≡ columns layout }
{
    match layout {
        Layout::Ticket => 5,
        Layout::Settlement => 3,
    }
}

// Quotient and rest as the definitions have them, by 0 too.
fn quotient(x: usize, y: usize) -> usize
    ensures { result ≡ x / y }
{
    x.checked_div(y).unwrap_or(0)
}

fn rest(x: usize, y: usize) -> usize
    ensures { result ≡ x % y }
{
    x.checked_rem(y).unwrap_or(x)
}

// The spot of somebody's hours.
fn party_spot(growers: usize, place: usize) -> Spot
    ensures { result ≡ party_spot growers place }
{
    let line = if place < growers {
        Line::Grower { number: place }
    } else {
        Line::Pilot {
            number: place - growers,
        }
    };
    Spot { line, column: 0 }
}

// The spot of a number of a pair.
fn pair_spot(layout: Layout, pilots: usize, place: usize) -> Spot
    ensures { result ≡ pair_spot layout pilots place }
{
    let width = columns(layout);
    let pair = quotient(place, width);
    let line = Line::Pair {
        grower: quotient(pair, pilots),
        pilot: rest(pair, pilots),
    };
    Spot {
        line,
        column: rest(place, width),
    }
}

// The spot of a place, in a document of so many growers and pilots.
pub(crate) fn spot_of(layout: Layout, growers: u16, pilots: u16, place: usize) -> Spot
    ensures { result ≡ spot_of layout growers pilots place }
{
    if place < HEAD {
        return Spot {
            line: Line::Head,
            column: place,
        };
    }
    let n = usize::from(growers);
    let m = usize::from(pilots);
    let hours = hours_of(layout, n, m);
    let after = place - HEAD;
    if after < hours {
        return party_spot(n, after);
    }
    pair_spot(layout, m, after - hours)
}
