// The numbers of a ticket and of a settlement of it. Deals are numbered in the order of the last walk: 2p is the tariff deal of
// pair p, 2p + 1 the free one. Parties are numbered as their hours stand in the ticket: growers, then pilots.
ghost use Rattle.std.specs.Prelude.{◌<◌};

// The number at a place, 0 past the end.
pub(crate) fn value(file: &[u8], place: usize) -> u8 {
    file.get(place).copied().unwrap_or(0)
}

// How many there are.

pub(crate) fn growers(ticket: &[u8]) -> u8
    ensures { result < 3 }
{
    value(ticket, 1).min(2)
}

pub(crate) fn pilots(ticket: &[u8]) -> u8
    ensures { result < 3 }
{
    value(ticket, 2).min(2)
}

pub(crate) fn parties(ticket: &[u8]) -> u8
    ensures { result < 5 }
{
    growers(ticket) + pilots(ticket)
}

pub(crate) fn pairs(ticket: &[u8]) -> u8
    ensures { result < 5 }
{
    let n = growers(ticket);
    if pilots(ticket) == 2 { n + n } else { n }
}

pub fn deals(ticket: &[u8]) -> u8
    ensures { result < 9 }
{
    2 * pairs(ticket)
}

// Who meet in a deal.

pub(crate) fn grower_of(ticket: &[u8], deal: u8) -> u8
    ensures { result < 128 }
{
    if pilots(ticket) == 2 {
        deal / 4
    } else {
        deal / 2
    }
}

pub(crate) fn pilot_index(ticket: &[u8], deal: u8) -> u8
    ensures { result < 2 }
{
    if pilots(ticket) == 2 { deal / 2 % 2 } else { 0 }
}

pub(crate) fn pilot_of(ticket: &[u8], deal: u8) -> u8 {
    growers(ticket) + pilot_index(ticket, deal)
}

pub(crate) fn is_free(deal: u8) -> bool {
    deal % 2 == 1
}

// What the ticket says.

pub(crate) fn own_hours(ticket: &[u8], party: u8) -> u8 {
    value(ticket, 3 + usize::from(party))
}

// The k-th of the five numbers of a pair.
pub(crate) fn of_pair(ticket: &[u8], pair: u8, k: u8) -> u8 {
    value(
        ticket,
        3 + usize::from(parties(ticket)) + 5 * usize::from(pair) + usize::from(k),
    )
}

pub(crate) fn cap(ticket: &[u8], deal: u8) -> u8 {
    let k: u8 = if is_free(deal) { 3 } else { 0 };
    of_pair(ticket, deal / 2, k)
}

pub(crate) fn tariff_gain(ticket: &[u8], deal: u8) -> u8 {
    of_pair(ticket, deal / 2, 1)
}

pub(crate) fn tariff_pay(ticket: &[u8], deal: u8) -> u8 {
    of_pair(ticket, deal / 2, 2)
}

pub(crate) fn joint_gain(ticket: &[u8], deal: u8) -> u8 {
    of_pair(ticket, deal / 2, 4)
}

// What the settlement says.

pub(crate) fn hours(settlement: &[u8], deal: u8) -> u8 {
    value(
        settlement,
        3 + 3 * usize::from(deal / 2) + usize::from(deal % 2),
    )
}

pub(crate) fn pay(settlement: &[u8], deal: u8) -> u8 {
    value(settlement, 5 + 3 * usize::from(deal / 2))
}

// What an hour of a deal earns its grower: a, or what the pilot's pay leaves of c.
fn grower_earns(ticket: &[u8], settlement: &[u8], deal: u8) -> u8 {
    if is_free(deal) {
        joint_gain(ticket, deal).saturating_sub(pay(settlement, deal))
    } else {
        tariff_gain(ticket, deal)
    }
}

// What it earns its pilot: b, or his pay.
fn pilot_earns(ticket: &[u8], settlement: &[u8], deal: u8) -> u8 {
    if is_free(deal) {
        pay(settlement, deal)
    } else {
        tariff_pay(ticket, deal)
    }
}

pub(crate) fn earns(ticket: &[u8], settlement: &[u8], party: u8, deal: u8) -> u8 {
    if party < growers(ticket) {
        grower_earns(ticket, settlement, deal)
    } else {
        pilot_earns(ticket, settlement, deal)
    }
}
