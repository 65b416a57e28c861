// A market from a list, and back.
ghost use Rattle.std.specs.Prelude.{◌≡◌, ◌+◌, ◌≤◌, length};
ghost use Rattle.std.proofs.lemmas.List.Edits.{sets};
ghost use Rattle.market_lists.specs.Lent.{market_length, numbers_in, part, market_in};

use open_market::Market;

// Where the settlement's numbers begin, the growers' free hours and the pilots'; and how many of these there are.
pub(crate) const SETTLEMENT: usize = 1315;

pub(crate) const GROWERS: usize = 2086;

const PILOTS: usize = 2102;

const ROW: usize = 16;

// Writes numbers into a list from a place on.
fn copy_at(list: &mut [u16], at: usize, numbers: &[u16])
    requires { at + length numbers.now ≤ length list.old }
    ensures list_after { list.new ≡ sets list.old at numbers.now }
    ensures list_len_unchanged { length list.new ≡ length list.old }
{
    list[at..at + numbers.len()].copy_from_slice(numbers);
}

// The sixteen numbers of a list from a place on.
fn row_at(list: &[u16], at: usize) -> [u16; 16]
    requires { at + 16 ≤ length list.now }
    ensures { result ≡ part 16 at list.now }
{
    let mut row = grid::zero_row();
    copy_at(&mut row, 0, &list[at..at + ROW]);
    row
}

// The market that a list holds.
pub(crate) fn held(list: &[u16]) -> Market
    requires { market_length ≤ length list.now }
    ensures { result ≡ market_in list.now }
{
    let mut ticket = numbers::ticket_list();
    copy_at(&mut ticket, 0, &list[..SETTLEMENT]);
    let mut settlement = numbers::settlement_list();
    copy_at(&mut settlement, 0, &list[SETTLEMENT..GROWERS]);
    Market {
        ticket,
        settlement,
        grower_free_hours: row_at(list, GROWERS),
        pilot_free_hours: row_at(list, PILOTS),
    }
}

// Writes a market to the front of a list.
pub(crate) fn hold(market: Market, list: &mut [u16])
    requires { market_length ≤ length list.old }
    ensures { list.new ≡ sets list.old 0 (numbers_in market) }
{
    let ticket = market.ticket;
    let settlement = market.settlement;
    let growers = market.grower_free_hours;
    let pilots = market.pilot_free_hours;
    copy_at(&mut *list, 0, &ticket);
    copy_at(&mut *list, SETTLEMENT, &settlement);
    copy_at(&mut *list, GROWERS, &growers);
    copy_at(list, PILOTS, &pilots);
}
