// Who has no hours, of the parties whose hours were read: one binary digit for each, which stays in a register while a ticket is read.
ghost use Rattle.std.specs.Prelude.{◌≡◌, suc, ◌-◌, ◌/◌, ◌%◌};
ghost use Rattle.checks.specs.Hours.{noted, has_none, none_of};

// How many parties are noted: no ticket has more.
const DIGITS: usize = 32;

// One party more. Digits that 32 others follow are dropped.
pub fn noted(without: u32, hours: usize) -> u32
    ensures { result ≡ noted without hours }
{
    let before = 2 * (without % 2147483648);
    if hours == 0 { before + 1 } else { before }
}

// Whether the party has none whose digit is followed by so many others.
fn has_none(without: u32, others: usize) -> bool
    ensures { result ≡ has_none without others }
{
    if others < DIGITS {
        (without >> others) % 2 == 1
    } else {
        false
    }
}

// Quotient and rest as the definitions have them, by 0 too.
fn quotient(x: usize, y: usize) -> usize
    ensures { result ≡ x / y }
{
    if y == 0 { 0 } else { x / y }
}

fn rest(x: usize, y: usize) -> usize
    ensures { result ≡ x % y }
{
    if y == 0 { x } else { x % y }
}

// How many of so many follow number i.
fn after(count: usize, i: usize) -> usize
    ensures { result ≡ count - suc i }
{
    if i < count { count - i - 1 } else { 0 }
}

// Whether the grower or the pilot of a pair has none.
pub fn pair_has_none(without: u32, growers: u16, pilots: u16, pair: usize) -> bool
    ensures { result ≡ none_of without growers pilots pair }
{
    let m = usize::from(pilots);
    let parties = usize::from(growers) + m;
    let grower = quotient(pair, m);
    let pilot = rest(pair, m);
    has_none(without, after(parties, grower)) || has_none(without, after(m, pilot))
}
