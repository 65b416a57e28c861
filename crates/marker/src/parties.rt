// Growers and pilots: their own hours, used and free, and their hours and earnings with each partner. What is said of a grower is said of
// a pilot too, whose rows are those of the squares on their side.
ghost use Rattle.std.specs.Prelude.{◌≡◌, ℕ, ◌<◌, ◌≤◌, [], get_or, length};
ghost use Rattle.grid.specs.First.{first};
ghost use Rattle.marker.specs.Tables.{used_in, party_of, party_at, nobody, is_over};

use crate::Party;
use numbers::left;

// A party's hours over all deals.
fn used(tariff: [u16; 16], free: [u16; 16], partners: usize) -> u32
    requires { partners ≤ 16 }
    ensures { result ≡ used_in tariff free partners }
{
    let mut total: u32 = 0;
    // by index: the same place of two rows
    for l in 0..partners {
        total += u32::from(tariff[l]) + u32::from(free[l]);
    }
    total
}

// A party of four rows.
fn party(
    hours: u16,
    tariff: [u16; 16],
    free: [u16; 16],
    earned: [u16; 16],
    share: [u16; 16],
    partners: usize,
) -> Party
    requires { partners ≤ 16 }
    ensures { result ≡ party_of hours tariff free earned share partners }
{
    let total = used(tariff, free, partners);
    Party {
        used: total,
        own: hours,
        unused: left(hours, total),
        tariff,
        free,
        earned,
        share,
    }
}

fn no_parties() -> [Party; 16]
    ensures { length result ≡ 16 }
{
    let row = grid::zero_row();
    let party = Party {
        used: 0,
        own: 0,
        unused: 0,
        tariff: row,
        free: row,
        earned: row,
        share: row,
    };
    [party; 16]
}

// The parties of one side, with so many partners on the other, by their rows in four squares.
pub(crate) fn parties(
    count: usize,
    partners: usize,
    hours: [u16; 16],
    tariff_hours: [[u16; 16]; 16],
    free_deal_hours: [[u16; 16]; 16],
    earned: [[u16; 16]; 16],
    share: [[u16; 16]; 16],
) -> [Party; 16]
    requires { (count ≤ 16) × (partners ≤ 16) }
    ensures { (p : ℕ) → p < count → get_or result p nobody ≡ party_at hours tariff_hours free_deal_hours earned share partners p }
{
    let mut all = no_parties();
    // by index: the same row of four squares, and the place that it fills
    for p in 0..count {
        all[p] = party(
            hours[p],
            tariff_hours[p],
            free_deal_hours[p],
            earned[p],
            share[p],
            partners,
        );
    }
    all
}

// The first of so many parties who is over his hours.
pub(crate) fn first_over(parties: [Party; 16], count: usize) -> usize
    requires { count ≤ 16 }
    ensures { result ≡ first (λ p. is_over (get_or parties p nobody)) count }
{
    // by index: the place is the answer
    for p in 0..count {
        let party = parties[p];
        if u32::from(party.own) < party.used {
            return p;
        }
    }
    count
}
