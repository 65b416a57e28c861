// The answer to a line.
use crate::saving::{pack, save};
use checks::Refusal;
use desk_calls::{Call, Fault, call_of, word};
use files::{Told, message, print};
use layouts::Layout;
use open_market::Market;
use printing::{Document, FreeHours, Refused, Sheet};
use tables::Side;
use words::Reason;

// What a call that sets something answers. Why it was refused is told after the answer.
fn tell_set(rt: &HostRuntime, outcome: Result<Market, Refusal>) -> Result<(), Told> {
    match outcome {
        Ok(_) => print(rt, &"OK\n"),
        Err(why) => {
            let done = print(rt, &Refused { why });
            message(rt, &Reason { why });
            done
        }
    }
}

// The market after a call that sets something.
fn set(rt: &HostRuntime, market: Market, outcome: Result<Market, Refusal>) -> Result<Market, Told> {
    tell_set(rt, outcome)?;
    Ok(open_market::market_after(outcome, market))
}

fn show_sheet(rt: &HostRuntime, market: Market) -> Result<(), Told> {
    let mut ticket = files::ticket_bytes();
    match pack(market, &mut ticket) {
        Ok(count) => {
            let ticket = ascii::front(&ticket, count);
            print(rt, &Sheet { ticket })
        }
        Err(why) => print(rt, &Refused { why }),
    }
}

// The market holds them, so that nothing is added up here.
fn show_free_hours(rt: &HostRuntime, market: Market) -> Result<(), Told> {
    let ticket = market.ticket;
    let growers = market.grower_free_hours;
    let pilots = market.pilot_free_hours;
    let free = FreeHours {
        ticket: &ticket,
        growers,
        pilots,
    };
    print(rt, &free)
}

fn show_ticket(rt: &HostRuntime, market: Market) -> Result<(), Told> {
    let ticket = market.ticket;
    let document = Document {
        layout: Layout::Ticket,
        list: tables::ticket_front(&ticket),
    };
    print(rt, &document)
}

fn show_saved(rt: &HostRuntime, market: Market, line: &[u8]) -> Result<(), Told> {
    match save(rt, market, word(line, 1), word(line, 2)) {
        Ok(()) => print(rt, &"OK\n"),
        Err(_) => print(rt, &"FAILED\n"),
    }
}

const HELP: &str = "grower I hours H
pilot J hours H
pair I J TARIFF_CAP A B FREE_CAP C
sheet
free
ticket
save TICKET SETTLEMENT
help
";

fn words_of(fault: Fault) -> &'static str {
    match fault {
        Fault::NoSuchCall => "line: no such call; help lists them",
        Fault::WordCount => "line: too many words, or too few",
        Fault::NoHours => "line: the word hours is missing",
        Fault::NoNumber => "line: not a number up to 65535",
    }
}

// The answer to a line that is no call, and then why it is none.
fn refuse_line(rt: &HostRuntime, why: &str) -> Result<(), Told> {
    let done = print(rt, &"?\n");
    message(rt, &why);
    done
}

pub(crate) fn refuse_long(rt: &HostRuntime) -> Result<(), Told> {
    refuse_line(rt, "line: more than 4096 bytes")
}

// Answers a call that changes nothing.
fn show(rt: &HostRuntime, market: Market, line: &[u8], call: Call) -> Result<(), Told> {
    match call {
        Call::Sheet => show_sheet(rt, market),
        Call::Free => show_free_hours(rt, market),
        Call::Ticket => show_ticket(rt, market),
        Call::Save => show_saved(rt, market, line),
        Call::Help => print(rt, &HELP),
        _ => Ok(()),
    }
}

// The market after a line.
pub(crate) fn answer(rt: &HostRuntime, market: Market, line: &[u8]) -> Result<Market, Told> {
    let call = match call_of(line) {
        Ok(Some(call)) => call,
        Ok(None) => return Ok(market),
        Err(fault) => {
            refuse_line(rt, words_of(fault))?;
            return Ok(market);
        }
    };
    match call {
        Call::Hours {
            side: Side::Growers,
            party,
            hours,
        } => set(
            rt,
            market,
            open_market::set_grower_hours(market, party, hours),
        ),
        Call::Hours {
            side: Side::Pilots,
            party,
            hours,
        } => set(
            rt,
            market,
            open_market::set_pilot_hours(market, party, hours),
        ),
        Call::Pair {
            grower,
            pilot,
            terms,
        } => set(
            rt,
            market,
            open_market::set_pair(market, grower, pilot, terms),
        ),
        _ => {
            show(rt, market, line, call)?;
            Ok(market)
        }
    }
}
