// The pairs of a ticket's list, narrowed one after another.
ghost use Rattle.std.specs.Prelude.{◌≡◌};
ghost use Rattle.tables.specs.View.{ticket_front};
ghost use Rattle.ticket_calls.specs.Calls.{after};
ghost use Rattle.windows.specs.Narrowed.{narrowed};
ghost use Rattle.windows.specs.Held.{InFront, Holds, pair_call};

use crate::terms::terms_of;
use numbers::entry;
use pair_caps::narrowed;

// Narrows the pair of a grower and a pilot who have so many hours in common.
fn narrow_pair(ticket: &mut [u16; 1315], grower: u16, pilot: u16, common: u16)
    ensures { ticket.new ≡ after (pair_call grower pilot common ticket.old) ticket.old }
{
    let terms = narrowed(terms_of(&*ticket, grower, pilot), common);
    // a refusal changes nothing; terms that are narrowed have none
    let _answer = ticket_calls::set_pair(ticket, grower, pilot, terms);
}

// Narrows all pairs to the hours that everybody's windows have in common.
pub(crate) fn narrow_pairs(ticket: &mut [u16; 1315], windows: &[u16])
    requires { Holds ticket.old }
    ensures { InFront (narrowed windows.now (ticket_front ticket.old)) ticket.new }
{
    let growers = entry(&*ticket, 1);
    let pilots = entry(&*ticket, 2);
    let common = window_lists::common_hours(windows, growers, pilots);
    // by number: grower i and pilot j are named to a call that writes the list
    for i in 0..growers {
        for j in 0..pilots {
            let hours = grid::cell(common, usize::from(i), usize::from(j));
            narrow_pair(&mut *ticket, i, j, hours);
        }
    }
}
