// Why something is refused, with the numbers that specs/Refusals.antt has too, and which document is read.
ghost use Rattle.std.specs.Prelude.{◌≡◌};
ghost use Rattle.checks.specs.Refusals.{number_of, refusals_of, must};

// A ticket, or the settlement of a ticket with so many growers and pilots.
#[derive(Clone, Copy)]
pub enum Document {
    Ticket,
    Settlement { growers: usize, pilots: usize },
}

// Why something is refused. Its number in docs/FORMAT.md is `number_of`.
#[derive(Clone, Copy, Debug, PartialEq, Eq)]
pub enum Refusal {
    Ends, // 1: the bytes end inside or before a number
    TooLong, // 2: a number's second byte has its top bit set
    Padded, // 3: its second byte is 00
    WrongKind, // 4: kind not 1
    PartiesOutOfRange, // 5: growers or pilots not 1 to 16
    HoursAboveLimit, // 6: hours above 60
    AboveLimit, // 7: a cap above 60 or an amount above 500
    AmountWithoutCap, // 8: an amount in a deal of cap 0
    NumbersLeft, // 9: something is left after the last number
    NoRoom, // 10: the lent list or buffer is too short
    SettlementEnds, // 11: of a settlement: as 1
    SettlementTooLong, // 12: as 2
    SettlementPadded, // 13: as 3
    SettlementWrongKind, // 14: kind not 2
    OtherParties, // 15: growers or pilots unlike the ticket's
    SettlementNumbersLeft, // 16: as 9
    NotSound, // 17: the settlement is not sound
    CapWithoutHours, // 18: a cap above 0 in a deal of somebody without hours
    NoParty, // 19: a call names nobody of the market
    AgainstLimits, // 20: a number that no ticket may have there
    NotWindows, // 21: numbers are no list of windows
    BadWindow, // 22: a window is empty, past the week or out of order
}

impl From<Refusal> for u8 {
    ghost from_gives = { λ why n. n ≡ number_of why };

    fn from(why: Refusal) -> u8 {
        match why {
            Refusal::Ends => 1,
            Refusal::TooLong => 2,
            Refusal::Padded => 3,
            Refusal::WrongKind => 4,
            Refusal::PartiesOutOfRange => 5,
            Refusal::HoursAboveLimit => 6,
            Refusal::AboveLimit => 7,
            Refusal::AmountWithoutCap => 8,
            Refusal::NumbersLeft => 9,
            Refusal::NoRoom => 10,
            Refusal::SettlementEnds => 11,
            Refusal::SettlementTooLong => 12,
            Refusal::SettlementPadded => 13,
            Refusal::SettlementWrongKind => 14,
            Refusal::OtherParties => 15,
            Refusal::SettlementNumbersLeft => 16,
            Refusal::NotSound => 17,
            Refusal::CapWithoutHours => 18,
            Refusal::NoParty => 19,
            Refusal::AgainstLimits => 20,
            Refusal::NotWindows => 21,
            Refusal::BadWindow => 22,
        }
    }
}

// The refusals that a document has cases of its own for.
#[derive(Clone, Copy)]
pub struct Refusals {
    pub ends: Refusal,
    pub long: Refusal,
    pub padded: Refusal,
    pub kind: Refusal,
    pub parties: Refusal,
    pub left: Refusal,
}

// The cases of a document: 1 to 5 and 9 for a ticket, 11 to 16 for a settlement.
pub fn refusals_of(document: Document) -> Refusals
    ensures { result ≡ refusals_of document }
{
    match document {
        Document::Ticket => Refusals {
            ends: Refusal::Ends,
            long: Refusal::TooLong,
            padded: Refusal::Padded,
            kind: Refusal::WrongKind,
            parties: Refusal::PartiesOutOfRange,
            left: Refusal::NumbersLeft,
        },
        Document::Settlement {
            growers: _,
            pilots: _,
        } => Refusals {
            ends: Refusal::SettlementEnds,
            long: Refusal::SettlementTooLong,
            padded: Refusal::SettlementPadded,
            kind: Refusal::SettlementWrongKind,
            parties: Refusal::OtherParties,
            left: Refusal::SettlementNumbersLeft,
        },
    }
}

// A test that must hold, and why it is refused where it doesn't.
pub fn must<E: Copy>(ok: bool, why: E) -> Result<(), E>
    ensures { result ≡ must ok why }
{
    if ok { Ok(()) } else { Err(why) }
}
