// What a line asks for: its first word says which call it is, and that says how many words it has. specs/Calls.antt has the same.
ghost use Rattle.std.specs.Prelude.{◌≡◌, ◌<◌};
ghost use Rattle.desk_calls.specs.Calls.{is_last, ending, numeral_at, hours_call, pair_call, plain_call, named_call, call_of};

use crate::number::number;
use crate::split::word;
use offers::Terms;
use tables::Side;

// The calls. The names of the files to save to are words of the line.
#[derive(Clone, Copy)]
pub enum Call {
    Hours {
        side: Side,
        party: u16,
        hours: u16,
    },
    Pair {
        grower: u16,
        pilot: u16,
        terms: Terms,
    },
    Sheet,
    Free,
    Ticket,
    Save,
    Help,
}

// Why a line is no call.
#[derive(Clone, Copy, Debug, PartialEq, Eq)]
pub enum Fault {
    NoSuchCall,
    WordCount,
    NoHours,
    NoNumber,
}

// Whether the word at a place is the last of its line.
fn is_last(line: &[u8], place: usize) -> bool
    requires { place < 8 }
    ensures { result ≡ is_last line.now place }
{
    word(line, place) != b"".as_slice() && word(line, place + 1) == b"".as_slice()
}

// A call, if the word at a place is the last of its line.
fn ending(line: &[u8], place: usize, call: Result<Call, Fault>) -> Result<Call, Fault>
    requires { place < 8 }
    ensures { result ≡ ending line.now place call }
{
    if is_last(line, place) {
        call
    } else {
        Err(Fault::WordCount)
    }
}

// The number that a word of a line spells.
fn number_at(line: &[u8], place: usize) -> Result<u16, Fault>
    ensures { result ≡ numeral_at line.now place }
{
    match number(word(line, place)) {
        Some(value) => Ok(value),
        None => Err(Fault::NoNumber),
    }
}

// Somebody's hours.
fn hours_call(line: &[u8], side: Side) -> Result<Call, Fault>
    ensures { result ≡ hours_call line.now side }
{
    if word(line, 2) != b"hours".as_slice() {
        return Err(Fault::NoHours);
    }
    let party = number_at(line, 1)?;
    let hours = number_at(line, 3)?;
    Ok(Call::Hours { side, party, hours })
}

// A pair and its terms.
fn pair_call(line: &[u8]) -> Result<Call, Fault>
    ensures { result ≡ pair_call line.now }
{
    let grower = number_at(line, 1)?;
    let pilot = number_at(line, 2)?;
    let tariff_cap = number_at(line, 3)?;
    let tariff_gain = number_at(line, 4)?;
    let tariff_pay = number_at(line, 5)?;
    let free_cap = number_at(line, 6)?;
    let joint_gain = number_at(line, 7)?;
    let terms = Terms {
        tariff_cap,
        tariff_gain,
        tariff_pay,
        free_cap,
        joint_gain,
    };
    Ok(Call::Pair {
        grower,
        pilot,
        terms,
    })
}

// The calls that change nothing, by their first word.
fn plain_call(name: &[u8], line: &[u8]) -> Result<Call, Fault>
    ensures { result ≡ plain_call name.now line.now }
{
    if name == b"sheet".as_slice() {
        return ending(line, 0, Ok(Call::Sheet));
    }
    if name == b"free".as_slice() {
        return ending(line, 0, Ok(Call::Free));
    }
    if name == b"ticket".as_slice() {
        return ending(line, 0, Ok(Call::Ticket));
    }
    if name == b"save".as_slice() {
        return ending(line, 2, Ok(Call::Save));
    }
    if name == b"help".as_slice() {
        return ending(line, 0, Ok(Call::Help));
    }
    Err(Fault::NoSuchCall)
}

// Any call, by its first word.
fn named_call(name: &[u8], line: &[u8]) -> Result<Call, Fault>
    ensures { result ≡ named_call name.now line.now }
{
    if name == b"grower".as_slice() {
        return ending(line, 3, hours_call(line, Side::Growers));
    }
    if name == b"pilot".as_slice() {
        return ending(line, 3, hours_call(line, Side::Pilots));
    }
    if name == b"pair".as_slice() {
        return ending(line, 7, pair_call(line));
    }
    plain_call(name, line)
}

// The call of a line, or none of a line without words.
pub fn call_of(line: &[u8]) -> Result<Option<Call>, Fault>
    ensures { result ≡ call_of line.now }
{
    let name = word(line, 0);
    if name == b"".as_slice() {
        return Ok(None);
    }
    let call = named_call(name, line)?;
    Ok(Some(call))
}
