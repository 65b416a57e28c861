// What is said of a settlement.
ghost use Rattle.std.specs.Prelude.{◌<◌};

use super::tally::{BOTH, CERTIFIED_ALONE, NEITHER, SOUND_ALONE};

pub(crate) fn is_sound(ticket: &[u8], settlement: &[u8; 15]) -> bool {
    plain::is_sound(
        ticket,
        ascii::front(settlement, plain::settlement_length(ticket)),
    )
}

// By the test of certificates, whose answer is given, and by the plain search. The answer is one of four counts.
pub(crate) fn judged(ticket: &[u8], settlement: &[u8; 15], certified: bool) -> usize
    ensures { result < 4 }
{
    if is_sound(ticket, settlement) {
        if certified { BOTH } else { SOUND_ALONE }
    } else {
        if certified { CERTIFIED_ALONE } else { NEITHER }
    }
}
