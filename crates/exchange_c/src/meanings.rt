// What C asks the text of.
ghost use Rattle.std.specs.Prelude.{◌≡◌, cond, ltb};
ghost use Rattle.exchange_c.specs.Texts.{meaning_of};

use texts::Meaning;

pub(crate) fn meaning_of(what: u32) -> Meaning
    ensures { result ≡ meaning_of what }
{
    match what {
        0 => Meaning::Refusal,
        _ => Meaning::Verdict,
    }
}

// Every number of more than a byte has the text of 0, as no refusal and no verdict has such a number.
pub(crate) fn byte_of(number: u32) -> u8
    ensures { result ≡ cond (ltb number 256) number 0 }
{
    if number < 256 { number as u8 } else { 0 }
}
