// The sheet of a ticket that is settled: header, the pairs with hours, and the marker's count.
ghost use Rattle.std.specs.Prelude.{◌≡◌, ◌∷◌, [], ◌++◌, ℕ, ◌≤◌};
ghost use Rattle.verdicts.specs.declared.Verdict.{Verdict};
ghost use Rattle.marker.specs.Marked.{marked};
ghost use Rattle.ascii.specs.Writing.{Wrote};
ghost use Rattle.ascii.specs.Lines.{line};
ghost use Rattle.sheets.specs.Sheet.{sheet_word, lines_of, sheet_text};
ghost use Rattle.sheets.specs.Printing.{Paired, Together};

use crate::lines::{amounts, counted, word};
use crate::pairs::pair_lines;
use tables::Quantity;
use verdicts::Verdict;

fn header(page: &mut [u8; 8216], growers: u16, pilots: u16) -> usize
    requires { (growers ≤ 16) × (pilots ≤ 16) }
    ensures { Wrote page.old page.new 0 result (sheet_word ++ line (growers ∷ pilots ∷ [])) }
{
    let next = word(page, 0, b"SHEET ");
    let parties = [growers, pilots];
    amounts(page, next, &parties)
}

// The deals that the marker looks at in a sound settlement.
pub(crate) fn marked_deals(ticket: &[u8], settlement: &[u8]) -> usize
    ensures { (count worth : ℕ) → marked ticket.now settlement.now ≡ Verdict.Sound count worth → result ≡ count }
{
    let verdict = marker::mark(ticket, settlement);
    if let Verdict::Sound { count, worth: _ } = verdict {
        count
    } else {
        0
    }
}

// The lines of the pairs, after a header that ends before a place.
fn lines_between(page: &mut [u8; 8216], at: usize, ticket: &[u16], settlement: &[u16]) -> usize
    requires { Paired ticket.now settlement.now × (at ≤ 14) }
    ensures { Wrote page.old page.new at result (lines_of ticket.now settlement.now) }
{
    pair_lines(
        page,
        at,
        tables::growers(ticket),
        tables::pilots(ticket),
        tables::square(settlement, Quantity::TariffHours),
        tables::square(ticket, Quantity::TariffGain),
        tables::square(ticket, Quantity::TariffPay),
        tables::square(settlement, Quantity::FreeDealHours),
        tables::square(ticket, Quantity::JointGain),
        tables::square(settlement, Quantity::Pay),
    )
}

// The sheet of a ticket's numbers and of those of a sound settlement of it.
pub(crate) fn settled_text(
    page: &mut [u8; 8216],
    ticket: &[u16],
    settlement: &[u16],
    count: usize,
) -> usize
    requires { Together ticket.now settlement.now count }
    ensures { Wrote page.old page.new 0 result (sheet_text ticket.now settlement.now) }
{
    let next = header(page, numbers::entry(ticket, 1), numbers::entry(ticket, 2));
    let last = lines_between(page, next, ticket, settlement);
    counted(page, last, b"SOUND ", count)
}
