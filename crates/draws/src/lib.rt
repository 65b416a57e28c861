// Tickets drawn from a seed. The same seed always gives the same ticket, and every ticket passes its checks.
#![tactic(auto)]

mod filling;
mod generator;
mod values;

ghost use Rattle.std.specs.Prelude.{Ok, ◌≡◌, ◌+◌, ◌*◌, ◌≤◌, length};
ghost use Rattle.std.proofs.lemmas.List.Edits.{sets};
ghost use Rattle.reader.specs.Answer.{reply, Tells, kept};
ghost use Rattle.draws.specs.Drawn.{ticket_from, in_range, both_in_range, drawn, Passes};

use filling::{fill_hours, fill_pairs};
use generator::start;
use reader::Refusal;

const KIND: u16 = 1;

const MOST_PARTIES: usize = 16;

fn in_range(parties: usize) -> bool
    ensures { result ≡ in_range parties }
{
    1 <= parties && parties <= MOST_PARTIES
}

fn both_in_range(growers: usize, pilots: usize) -> bool
    ensures { result ≡ both_in_range growers pilots }
{
    in_range(growers) && in_range(pilots)
}

// Writes a ticket's numbers to the front of a list.
fn fill(list: &mut [u16], growers: usize, pilots: usize, pairs: usize, x: u32)
    requires growers_bound { (growers ≤ 16) × (pilots ≤ 16) × (pairs ≡ growers * pilots) × (pairs ≤ 256) }
    requires pairs_in_bounds { 3 + growers + pilots + 5 * pairs ≤ length list.old }
    ensures { list.new ≡ sets list.old 0 (ticket_from growers pilots x) }
{
    list[0] = KIND;
    list[1] = growers as u16;
    list[2] = pilots as u16;
    let parties = growers + pilots;
    let hours = fill_hours(list, 3, parties, x);
    fill_pairs(
        list,
        3 + parties,
        growers as u16,
        pilots as u16,
        pairs,
        hours,
    );
}

// Writes a ticket's numbers, if the list has room for them.
fn deliver(x: u32, growers: usize, pilots: usize, list: &mut [u16]) -> Result<usize, Refusal>
    requires { (growers ≤ 16) × (pilots ≤ 16) }
    ensures value { result ≡ reply (length list.old) (Ok (ticket_from growers pilots x)) }
    ensures list_after { list.new ≡ kept list.old (Ok (ticket_from growers pilots x)) }
{
    let pairs = numbers::pairs(growers, pilots);
    let count = 3 + growers + pilots + 5 * pairs;
    if list.len() < count {
        return Err(Refusal::NoRoom);
    }
    fill(list, growers, pilots, pairs, x);
    Ok(count)
}

// Draws a ticket of so many growers and pilots from a seed, and returns the count of its numbers.
pub fn draw(seed: u64, growers: usize, pilots: usize, list: &mut [u16]) -> Result<usize, Refusal>
    ensures tells { Tells result (length list.old) (drawn seed growers pilots) }
    ensures list_after { list.new ≡ kept list.old (drawn seed growers pilots) }
    ensures passes { Passes (drawn seed growers pilots) }
{
    if !both_in_range(growers, pilots) {
        return Err(Refusal::PartiesOutOfRange);
    }
    deliver(start(seed), growers, pilots, list)
}
