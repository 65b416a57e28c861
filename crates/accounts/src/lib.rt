// The account of a settlement: each grower's gain, then pilot by pilot his pay and the commission on it.
#![tactic(auto)]

mod earnings;
mod listing;

ghost use Rattle.std.specs.Prelude.{◌≡◌};
ghost use Rattle.reader.specs.Answer.{settlement_read};
ghost use Rattle.tables.specs.View.{growers_of, pilots_of, ticket_of, settlement_of};
ghost use Rattle.marker.specs.Marked.{SoundFiles};
ghost use Rattle.accounts.specs.Accounted.{account_numbers, listing, account_values, accounted, accounted_values};
ghost use Rattle.accounts.specs.Earnings.{Modest};
ghost use Rattle.accounts.specs.Listing.{SoundFor, account_of};

use checks::Refusal;
use earnings::{gains, pays};
pub use listing::Account;
use listing::{list_gains, list_pays, no_numbers};
use verdicts::Verdict;

// The account of the numbers of a ticket and of a settlement.
fn account_numbers(ticket: &[u16], settlement: &[u16]) -> Account
    requires { Modest ticket.now settlement.now }
    ensures { result ≡ listing (account_numbers (ticket_of ticket.now) (settlement_of settlement.now)) }
{
    let growers = tables::growers(ticket);
    let pilots = tables::pilots(ticket);
    let mut list = no_numbers();
    list_gains(&mut list, gains(ticket, settlement), growers);
    list_pays(&mut list, growers, pays(ticket, settlement), pilots);
    Account {
        count: growers + 2 * pilots,
        list,
    }
}

// The account of a ticket's numbers and a sound settlement's bytes.
fn account_against(ticket: &[u16], settlement: &[u8]) -> Result<Account, Refusal>
    requires { SoundFor ticket.now settlement.now }
    ensures { result ≡ account_of ticket.now
        (settlement_read (growers_of ticket.now) (pilots_of ticket.now) settlement.now) }
{
    let growers = tables::growers(ticket);
    let pilots = tables::pilots(ticket);
    let mut numbers = numbers::settlement_list();
    let count = reader::read_settlement(settlement, growers, pilots, &mut numbers)?;
    Ok(account_numbers(ticket, numbers::front(&numbers, count)))
}

// The account of files that are a ticket and a sound settlement of it.
fn account_sound(ticket: &[u8], settlement: &[u8]) -> Result<Account, Refusal>
    requires { SoundFiles ticket.now settlement.now }
    ensures { result ≡ accounted ticket.now settlement.now }
{
    let mut numbers = numbers::ticket_list();
    let count = reader::unpack(ticket, &mut numbers)?;
    account_against(numbers::front(&numbers, count), settlement)
}

// The account of a ticket and a settlement, both as the bytes of files.
pub fn account(ticket: &[u8], settlement: &[u8]) -> Result<Account, Refusal>
    ensures value { result ≡ accounted ticket.now settlement.now }
    ensures reply_value { account_values result ≡ accounted_values ticket.now settlement.now }
{
    let verdict = marker::mark(ticket, settlement);
    match verdict {
        Verdict::Refused { why } => Err(why),
        Verdict::Sound { count: _, worth: _ } => account_sound(ticket, settlement),
        _ => Err(Refusal::NotSound),
    }
}
