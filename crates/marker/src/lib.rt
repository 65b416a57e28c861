// Marking: whether a settlement of a ticket is sound, and if not, its first fault.
#![tactic(auto)]

ghost use Rattle.std.specs.Prelude.{◌≡◌, ◌≤◌};
ghost use Rattle.tables.specs.View.{growers_of, pilots_of};
ghost use Rattle.reader.specs.Answer.{settlement_read};
ghost use Rattle.verdicts.specs.Values.{values_of};
ghost use Rattle.marker.specs.Marked.{settlement_marked, marked, marked_values};

mod deal_faults;
mod judging;
mod pair_faults;
mod parties;

use crate::judging::judge;
use verdicts::Verdict;

// A party: his hours over all deals, his own hours, and those of his own in no deal; with each partner his hours by the tariff and in the
// free deal, and what an hour of each earns him.
#[derive(Clone, Copy)]
pub(crate) struct Party {
    pub(crate) used: u32,
    pub(crate) own: u16,
    pub(crate) unused: u16,
    pub(crate) tariff: [u16; 16],
    pub(crate) free: [u16; 16],
    pub(crate) earned: [u16; 16],
    pub(crate) share: [u16; 16],
}

// Marks a settlement's bytes against a ticket's numbers.
fn mark_against(ticket: &[u16], settlement: &[u8]) -> Verdict
    requires { (growers_of ticket.now ≤ 16) × (pilots_of ticket.now ≤ 16) }
    ensures { result ≡ settlement_marked ticket.now
        (settlement_read (growers_of ticket.now) (pilots_of ticket.now) settlement.now) }
{
    let growers = tables::growers(ticket);
    let pilots = tables::pilots(ticket);
    let mut numbers = numbers::settlement_list();
    let reply = reader::read_settlement(settlement, growers, pilots, &mut numbers);
    match reply {
        Err(why) => Verdict::Refused { why },
        Ok(count) => judge(ticket, numbers::front(&numbers, count)),
    }
}

// Marks a settlement against a ticket, both as the bytes of files.
pub fn mark(ticket: &[u8], settlement: &[u8]) -> Verdict
    ensures value { result ≡ marked ticket.now settlement.now }
    ensures result_value { values_of result ≡ marked_values ticket.now settlement.now }
{
    let mut numbers = numbers::ticket_list();
    let reply = reader::unpack(ticket, &mut numbers);
    match reply {
        Err(why) => Verdict::Refused { why },
        Ok(count) => mark_against(numbers::front(&numbers, count), settlement),
    }
}
