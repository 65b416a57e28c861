// The cheapest spare of a party for a deal.
ghost use Rattle.std.specs.Prelude.{◌≡◌, min, set};
ghost use Rattle.verdicts.specs.Tests.{count_in, cheapest_of, lines, cheapest_spare};

use market::Deal;

// The cheaper of a spare and hours that are worth so much each, if there are any.
fn count_in(spare: Option<u16>, hours: u16, worth: u16) -> Option<u16>
    ensures { result ≡ count_in hours worth spare }
{
    if hours == 0 {
        return spare;
    }
    Some(spare.map_or(worth, |w| w.min(worth)))
}

// The cheapest of a spare and the hours of both deals with each partner.
fn cheapest(
    spare: Option<u16>,
    tariff: [u16; 16],
    free: [u16; 16],
    earned: [u16; 16],
    share: [u16; 16],
    partners: usize,
) -> Option<u16>
    ensures { result ≡ cheapest_of spare (lines tariff free) (lines earned share) (min 16 partners) }
{
    let count = numbers::within(partners);
    let mut best = spare;
    // by index: the same place of four rows
    for l in 0..count {
        let by_tariff = count_in(best, tariff[l], earned[l]);
        best = count_in(by_tariff, free[l], share[l]);
    }
    best
}

// The partner of no deal: beyond every row.
const NO_PARTNER: usize = 16;

// A party's hours in deals of one kind without those with a partner.
fn without(hours: [u16; 16], partner: usize) -> [u16; 16]
    ensures { result ≡ set hours partner 0 }
{
    let mut rest = hours;
    if partner < 16 {
        rest[partner] = 0;
    }
    rest
}

// A party's cheapest spare for a deal with a partner, by his unused hours and, for each partner, his hours in both deals and what an hour of
// each earns him. The deal's own hours are no spare; those of the pair's other deal count as any other.
pub fn cheapest_spare(
    unused: u16,
    tariff: [u16; 16],
    free: [u16; 16],
    earned: [u16; 16],
    share: [u16; 16],
    partners: usize,
    deal: Deal,
    partner: usize,
) -> Option<u16>
    ensures { result ≡ cheapest_spare unused 0 (lines tariff free) (lines earned share) (min 16 partners) deal partner }
{
    let free_hour = count_in(None, unused, 0);
    match deal {
        Deal::Tariff => cheapest(
            free_hour,
            without(tariff, partner),
            without(free, NO_PARTNER),
            earned,
            share,
            partners,
        ),
        Deal::Free => cheapest(
            free_hour,
            without(tariff, NO_PARTNER),
            without(free, partner),
            earned,
            share,
            partners,
        ),
    }
}
