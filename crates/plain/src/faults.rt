// The verdict on a settlement by the words of the paper: every spare of either side and every split is tried.
use super::numbers::{
    cap, deals, grower_of, growers, hours, is_free, joint_gain, own_hours, parties, pay,
    pilot_index, pilot_of, tariff_gain, tariff_pay, value,
};
use super::settlements::settlement_length;
use super::spares::{has_free_hour, has_hour, used, worth};

// What a verdict says. The deal of the first two is in their names, that of the last two stands beside them.
#[derive(Clone, Copy, Debug, PartialEq, Eq)]
pub enum Kind {
    Sound,
    TariffOverCap,
    FreeOverCap,
    WrongPay,
    GrowerOverHours,
    PilotOverHours,
    Idle,
    Blocks,
}

impl Kind {
    // Its number on paper.
    pub fn number(self) -> u8 {
        match self {
            Kind::Sound => 1,
            Kind::TariffOverCap => 2,
            Kind::FreeOverCap => 3,
            Kind::WrongPay => 4,
            Kind::GrowerOverHours => 5,
            Kind::PilotOverHours => 6,
            Kind::Idle => 7,
            Kind::Blocks => 8,
        }
    }
}

// A verdict with its numbers on paper; the deal is 0 by the tariff and 1 for the free one.
#[derive(Clone, Copy, Debug, PartialEq, Eq)]
pub struct Answer {
    pub kind: Kind,
    pub grower: usize,
    pub pilot: usize,
    pub deal: usize,
    pub count: usize,
}

fn found(kind: Kind, grower: u8, pilot: u8) -> Answer {
    Answer {
        kind,
        grower: usize::from(grower),
        pilot: usize::from(pilot),
        deal: 0,
        count: 0,
    }
}

fn is_over_cap(ticket: &[u8], settlement: &[u8], deal: u8) -> bool {
    hours(settlement, deal) > cap(ticket, deal)
}

// Pay above the joint gain, or for no hours.
fn is_pay_wrong(ticket: &[u8], settlement: &[u8], deal: u8) -> bool {
    let v = pay(settlement, deal);
    v > joint_gain(ticket, deal) || v > 0 && hours(settlement, deal) == 0
}

// A deal's own fault; pay is the free deal's.
fn fault_of_terms(ticket: &[u8], settlement: &[u8], deal: u8) -> Option<Kind> {
    if is_over_cap(ticket, settlement, deal) {
        return Some(if is_free(deal) {
            Kind::FreeOverCap
        } else {
            Kind::TariffOverCap
        });
    }
    if is_free(deal) && is_pay_wrong(ticket, settlement, deal) {
        return Some(Kind::WrongPay);
    }
    None
}

// A fault of a deal, with who and which.
fn found_at(ticket: &[u8], kind: Kind, deal: u8, count: usize) -> Answer {
    Answer {
        deal: usize::from(deal % 2),
        count,
        ..found(kind, grower_of(ticket, deal), pilot_index(ticket, deal))
    }
}

fn wrong_terms(ticket: &[u8], settlement: &[u8]) -> Option<Answer> {
    for deal in 0..deals(ticket) {
        if let Some(kind) = fault_of_terms(ticket, settlement, deal) {
            return Some(found_at(ticket, kind, deal, 0));
        }
    }
    None
}

fn over_hours(ticket: &[u8], party: u8) -> Answer {
    let n = growers(ticket);
    if party < n {
        found(Kind::GrowerOverHours, party, 0)
    } else {
        found(Kind::PilotOverHours, 0, party - n)
    }
}

fn wrong_party(ticket: &[u8], settlement: &[u8]) -> Option<Answer> {
    (0..parties(ticket))
        .find(|&party| used(ticket, settlement, party) > usize::from(own_hours(ticket, party)))
        .map(|party| over_hours(ticket, party))
}

// Both parties of the deal have a free hour.
fn is_idle(ticket: &[u8], settlement: &[u8], deal: u8) -> bool {
    has_free_hour(ticket, settlement, grower_of(ticket, deal))
        && has_free_hour(ticket, settlement, pilot_of(ticket, deal))
}

// Some part x of the whole is more than w and leaves more than v.
fn some_split(whole: usize, w: usize, v: usize) -> bool {
    (0..=whole).any(|x| x > w && whole.saturating_sub(x) > v)
}

// Splits in half euros. No finer one is needed: a split that serves both makes c greater than w + v, and then 2w + 1 of the 2c
// halves leave at least 2v + 1.
fn some_split_serves(c: u8, w: u8, v: u8) -> bool {
    some_split(2 * usize::from(c), 2 * usize::from(w), 2 * usize::from(v))
}

// Both gain by an hour more of the deal if the grower gives up a spare worth w and the pilot one worth v.
fn both_gain(ticket: &[u8], deal: u8, w: u8, v: u8) -> bool {
    if is_free(deal) {
        return some_split_serves(joint_gain(ticket, deal), w, v);
    }
    tariff_gain(ticket, deal) > w && tariff_pay(ticket, deal) > v
}

// With the grower's spare worth w, some spare of the pilot. The deal's own hours are no spares, those of the pair's other deal are.
fn some_pilot_spare(ticket: &[u8], settlement: &[u8], deal: u8, w: u8) -> bool {
    let pilot = pilot_of(ticket, deal);
    (0..=deals(ticket)).any(|source| {
        source != deal
            && has_hour(ticket, settlement, pilot, source)
            && both_gain(ticket, deal, w, worth(ticket, settlement, pilot, source))
    })
}

// Some spare of the grower with some spare of the pilot.
fn is_blocking(ticket: &[u8], settlement: &[u8], deal: u8) -> bool {
    let grower = grower_of(ticket, deal);
    (0..=deals(ticket)).any(|source| {
        source != deal
            && has_hour(ticket, settlement, grower, source)
            && some_pilot_spare(
                ticket,
                settlement,
                deal,
                worth(ticket, settlement, grower, source),
            )
    })
}

fn fault_of_deal(ticket: &[u8], settlement: &[u8], deal: u8) -> Option<Kind> {
    if hours(settlement, deal) >= cap(ticket, deal) {
        return None;
    }
    if is_idle(ticket, settlement, deal) {
        return Some(Kind::Idle);
    }
    if is_blocking(ticket, settlement, deal) {
        return Some(Kind::Blocks);
    }
    None
}

fn wrong_deal(ticket: &[u8], settlement: &[u8]) -> Option<Answer> {
    for deal in 0..deals(ticket) {
        if let Some(kind) = fault_of_deal(ticket, settlement, deal) {
            return Some(found_at(ticket, kind, deal, usize::from(deal) + 1));
        }
    }
    None
}

fn sound(ticket: &[u8]) -> Answer {
    Answer {
        count: usize::from(deals(ticket)),
        ..found(Kind::Sound, 0, 0)
    }
}

// No fault of a deal's terms, and nobody over his hours.
pub(crate) fn is_feasible(ticket: &[u8], settlement: &[u8]) -> bool {
    wrong_terms(ticket, settlement).is_none() && wrong_party(ticket, settlement).is_none()
}

// The first fault in the paper's order, or sound.
pub fn verdict(ticket: &[u8], settlement: &[u8]) -> Answer {
    wrong_terms(ticket, settlement)
        .or_else(|| wrong_party(ticket, settlement))
        .or_else(|| wrong_deal(ticket, settlement))
        .unwrap_or(sound(ticket))
}

// Kind 2, the ticket's n and m, and as many bytes as there are numbers.
fn has_form(ticket: &[u8], settlement: &[u8]) -> bool {
    value(settlement, 0) == 2
        && value(settlement, 1) == value(ticket, 1)
        && value(settlement, 2) == value(ticket, 2)
        && settlement.len() == settlement_length(ticket)
}

// Whether a file is a sound settlement of the ticket.
pub fn is_sound(ticket: &[u8], settlement: &[u8]) -> bool {
    has_form(ticket, settlement) && verdict(ticket, settlement).kind == Kind::Sound
}
