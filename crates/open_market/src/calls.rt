// The calls: a party's hours, and the five numbers of a pair. A refused call has no market to answer: `market_after` gives the one that was.
ghost use Rattle.std.specs.Prelude.{◌≡◌};
ghost use Rattle.ticket_calls.specs.declared.Party.TheVariants.{Grower, Pilot};
ghost use Rattle.ticket_calls.specs.Calls.{SetHours, SetPair};
ghost use Rattle.open_market.specs.Markets.{Called, CalledAfter, market_after};

use crate::held::{Market, settled};
use checks::Refusal;
use offers::Terms;
use ticket_calls::Party;

fn set_hours(market: Market, party: Party, hours: u16) -> Result<Market, Refusal>
    ensures answer { Called (SetHours party hours) market result }
    ensures after { CalledAfter (SetHours party hours) market (market_after result market) }
{
    let mut ticket = market.ticket;
    ticket_calls::set_hours(&mut ticket, party, hours)?;
    let next = settled(ticket);
    Ok(next)
}

// Sets the hours of a grower.
pub fn set_grower_hours(market: Market, grower: u16, hours: u16) -> Result<Market, Refusal>
    ensures answer { Called (SetHours (Grower grower) hours) market result }
    ensures after { CalledAfter (SetHours (Grower grower) hours) market (market_after result market) }
{
    set_hours(market, Party::Grower { number: grower }, hours)
}

// Sets the hours of a pilot.
pub fn set_pilot_hours(market: Market, pilot: u16, hours: u16) -> Result<Market, Refusal>
    ensures answer { Called (SetHours (Pilot pilot) hours) market result }
    ensures after { CalledAfter (SetHours (Pilot pilot) hours) market (market_after result market) }
{
    set_hours(market, Party::Pilot { number: pilot }, hours)
}

// Sets the five numbers of a grower and a pilot.
pub fn set_pair(market: Market, grower: u16, pilot: u16, terms: Terms) -> Result<Market, Refusal>
    ensures answer { Called (SetPair grower pilot terms) market result }
    ensures after { CalledAfter (SetPair grower pilot terms) market (market_after result market) }
{
    let mut ticket = market.ticket;
    ticket_calls::set_pair(&mut ticket, grower, pilot, terms)?;
    let changed = settled(ticket);
    Ok(changed)
}

// The market that is held after a call on it: what the call answered, or the market as it was where the call was refused.
pub fn market_after(answer: Result<Market, Refusal>, market: Market) -> Market
    ensures { result ≡ market_after answer market }
{
    match answer {
        Ok(held) => held,
        Err(_) => market,
    }
}
