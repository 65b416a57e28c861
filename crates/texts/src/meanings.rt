// What refusals and verdicts mean, in words. The numbers are those of docs/FORMAT.md.
ghost use Rattle.std.specs.Prelude.{◌≡◌, ◌<◌, ◌≤◌, length, Ok};
ghost use Rattle.reader.specs.Answer.{Tells, kept};
ghost use Rattle.ascii.specs.Writing.{Wrote};
ghost use Rattle.texts.specs.Meanings.{text_bytes, refusal_text, verdict_text, telling_of};

use crate::Meaning;
use crate::marks::{lend, word};
use checks::Refusal;

// Bytes that suffice for every text.
pub const TEXT: usize = 96;

fn blank() -> [u8; 96]
    ensures { length result ≡ text_bytes }
{
    [0; TEXT]
}

// By number, since every number has an answer, also one that no refusal has: the functions for C take any. Writes the text of a refusal at the front of a line, and returns the place after it. So do the functions below.
fn early_refusal(line: &mut [u8], why: u8) -> usize
    requires { (why < 11) × (text_bytes ≤ length line.old) }
    ensures { Wrote line.old line.new 0 result (refusal_text why) }
{
    match why {
        1 => word(line, 0, b"ticket: it ends early"),
        2 => word(line, 0, b"ticket: a number of more than two bytes"),
        3 => word(line, 0, b"ticket: a number padded with 00"),
        4 => word(line, 0, b"ticket: another kind of file"),
        5 => word(line, 0, b"ticket: growers or pilots not 1 to 16"),
        6 => word(line, 0, b"ticket: hours above 60"),
        7 => word(line, 0, b"ticket: a cap above 60 or an amount above 500"),
        8 => word(line, 0, b"ticket: an amount in a deal of cap 0"),
        9 => word(line, 0, b"ticket: something is left at its end"),
        10 => word(line, 0, b"answer: the buffer is too short"),
        _ => word(line, 0, b"no such refusal"),
    }
}

fn later_refusal(line: &mut [u8], why: u8) -> usize
    requires { (10 < why) × (text_bytes ≤ length line.old) }
    ensures { Wrote line.old line.new 0 result (refusal_text why) }
{
    match why {
        11 => word(line, 0, b"settlement: it ends early"),
        12 => word(line, 0, b"settlement: a number of more than two bytes"),
        13 => word(line, 0, b"settlement: a number padded with 00"),
        14 => word(line, 0, b"settlement: another kind of file"),
        15 => word(
            line,
            0,
            b"settlement: growers or pilots unlike the ticket's",
        ),
        16 => word(line, 0, b"settlement: something is left at its end"),
        17 => word(line, 0, b"settlement: not sound"),
        18 => word(
            line,
            0,
            b"ticket: a cap above 0, but the grower or the pilot has no hours",
        ),
        19 => word(line, 0, b"call: no such grower or pilot"),
        20 => word(line, 0, b"call: a number breaks the limits of a ticket"),
        21 => word(
            line,
            0,
            b"windows: the list ends early, has more than 8 windows of a party or numbers left",
        ),
        22 => word(
            line,
            0,
            b"windows: one is empty, past hour 168 or begins before the last has closed",
        ),
        _ => word(line, 0, b"no such refusal"),
    }
}

fn refusal(line: &mut [u8], why: u8) -> usize
    requires { text_bytes ≤ length line.old }
    ensures { Wrote line.old line.new 0 result (refusal_text why) }
{
    if why < 11 {
        return early_refusal(line, why);
    }
    later_refusal(line, why)
}

fn verdict(line: &mut [u8], number: u8) -> usize
    requires { text_bytes ≤ length line.old }
    ensures { Wrote line.old line.new 0 result (verdict_text number) }
{
    match number {
        1 => word(line, 0, b"sound: no deal is idle or blocks"),
        2 => word(line, 0, b"more hours than its cap"),
        3 => word(line, 0, b"more hours than its cap"),
        4 => word(line, 0, b"wrong pay"),
        5 => word(line, 0, b"more hours than his own"),
        6 => word(line, 0, b"more hours than his own"),
        7 => word(line, 0, b"idle, below its cap"),
        8 => word(line, 0, b"blocks"),
        _ => word(line, 0, b"no such verdict"),
    }
}

fn told(line: &mut [u8], what: Meaning, number: u8) -> usize
    requires { text_bytes ≤ length line.old }
    ensures { Wrote line.old line.new 0 result (telling_of what number) }
{
    match what {
        Meaning::Refusal => refusal(line, number),
        Meaning::Verdict => verdict(line, number),
    }
}

// Writes the words of a refusal or a verdict, without a line end, at the front of a lent buffer. `TEXT` bytes suffice.
pub fn telling(what: Meaning, number: u8, text: &mut [u8]) -> Result<usize, Refusal>
    ensures tells { Tells result (length text.old) (Ok (telling_of what number)) }
    ensures text_after { text.new ≡ kept text.old (Ok (telling_of what number)) }
{
    let mut line = blank();
    let end = told(&mut line, what, number);
    lend(&line[..end], text)
}
