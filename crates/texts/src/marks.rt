// The line that tells what marking answered.
ghost use Rattle.std.specs.Prelude.{◌≡◌, ◌+◌, ◌<◌, ◌≤◌, length, Ok};
ghost use Rattle.reader.specs.Answer.{Tells, kept};
ghost use Rattle.verdicts.specs.Values.{Bounded};
ghost use Rattle.marker.specs.Marked.{marked_values};
ghost use Rattle.ascii.specs.Decimal.{decimal};
ghost use Rattle.ascii.specs.Writing.{Wrote};
ghost use Rattle.ascii.specs.Lines.{refused_text};
ghost use Rattle.texts.specs.MarkLine.{line_bytes, field, deal_word, head_of, verdict_line, mark_line};

use checks::Refusal;
use market::Deal;
use verdicts::Values;

// The bytes of the longest line: `MARK `, four numbers of three digits with what stands after each, and `tariff `.
pub const LINE: usize = 28;

fn blank() -> [u8; 28]
    ensures { length result ≡ line_bytes }
{
    [0; LINE]
}

// Writes bytes from a place on, and returns the place after them. So do the functions below.
pub(crate) fn word(line: &mut [u8], at: usize, bytes: &[u8]) -> usize
    requires { at + length bytes.now ≤ length line.old }
    ensures { Wrote line.old line.new at result bytes.now }
{
    pages::put(line, at, bytes)
}

fn number(line: &mut [u8], at: usize, n: usize) -> usize
    requires { (n < 1000) × (at + 3 ≤ length line.old) }
    ensures { Wrote line.old line.new at result (decimal n) }
{
    let mut digits = [0u8; 20];
    let first = ascii::numeral(n, &mut digits);
    word(line, at, &digits[first..])
}

// A number and a space.
fn spaced(line: &mut [u8], at: usize, n: usize) -> usize
    requires { (n < 1000) × (at + 4 ≤ length line.old) }
    ensures { Wrote line.old line.new at result (field n) }
{
    let next = number(line, at, n);
    word(line, next, b" ")
}

fn deal_word(line: &mut [u8], at: usize, deal: Deal) -> usize
    requires { at + 7 ≤ length line.old }
    ensures { Wrote line.old line.new at result (deal_word deal) }
{
    match deal {
        Deal::Tariff => word(line, at, b"tariff "),
        Deal::Free => word(line, at, b"free "),
    }
}

// The start of a verdict's line: its number, grower and pilot.
fn head(line: &mut [u8], values: Values) -> usize
    requires { Bounded values × (line_bytes ≤ length line.old) }
    ensures { Wrote line.old line.new 0 result (head_of values) }
{
    let first = word(line, 0, b"MARK ");
    let second = spaced(line, first, usize::from(values.verdict));
    let third = spaced(line, second, values.grower);
    spaced(line, third, values.pilot)
}

// The line of a verdict, and of a refusal.
fn verdict_line(line: &mut [u8], values: Values) -> usize
    requires { Bounded values × (line_bytes ≤ length line.old) }
    ensures { Wrote line.old line.new 0 result (verdict_line values) }
{
    let next = head(line, values);
    let deal = values.deal;
    let last = deal_word(line, next, deal);
    let end = number(line, last, values.count);
    word(line, end, b"\n")
}

fn refusal_line(line: &mut [u8], why: u8) -> usize
    requires { line_bytes ≤ length line.old }
    ensures { Wrote line.old line.new 0 result (refused_text why) }
{
    let next = word(line, 0, b"REFUSED ");
    let last = number(line, next, usize::from(why));
    word(line, last, b"\n")
}

fn tell(line: &mut [u8], values: Values) -> usize
    requires { Bounded values × (line_bytes ≤ length line.old) }
    ensures { Wrote line.old line.new 0 result (mark_line values) }
{
    if values.refusal == 0 {
        return verdict_line(line, values);
    }
    refusal_line(line, values.refusal)
}

// Writes bytes at the front of a lent buffer, if it has room for them.
pub(crate) fn lend(bytes: &[u8], text: &mut [u8]) -> Result<usize, Refusal>
    ensures tells { Tells result (length text.old) (Ok bytes.now) }
    ensures text_after { text.new ≡ kept text.old (Ok bytes.now) }
{
    if text.len() < bytes.len() {
        return Err(Refusal::NoRoom);
    }
    word(text, 0, bytes);
    Ok(bytes.len())
}

// Marks a settlement against a ticket, both as the bytes of files, and writes the answer's line at the front of a lent buffer.
pub fn mark_line(ticket: &[u8], settlement: &[u8], text: &mut [u8]) -> Result<usize, Refusal>
    ensures tells { Tells result (length text.old) (Ok (mark_line (marked_values ticket.now settlement.now))) }
    ensures text_after { text.new ≡ kept text.old (Ok (mark_line (marked_values ticket.now settlement.now))) }
{
    let mut line = blank();
    let end = tell(
        &mut line,
        verdicts::values_of(marker::mark(ticket, settlement)),
    );
    lend(&line[..end], text)
}
