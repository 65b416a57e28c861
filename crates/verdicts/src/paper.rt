// The paper's number and values of a verdict.
ghost use Rattle.std.specs.Prelude.{◌≡◌};
ghost use Rattle.verdicts.specs.Values.{fault_values, values_of};

use crate::{Values, Verdict};
use market::Deal;

// Only a sound settlement has a worth.
const NO_WORTH: u64 = 0;

// Of a fault.
fn values(verdict: u8, grower: usize, pilot: usize, deal: Deal, count: usize) -> Values
    ensures { result ≡ fault_values verdict grower pilot deal count }
{
    Values {
        refusal: 0,
        verdict,
        grower,
        pilot,
        deal,
        count,
        worth: NO_WORTH,
    }
}

pub fn values_of(verdict: Verdict) -> Values
    ensures { result ≡ values_of verdict }
{
    match verdict {
        Verdict::Refused { why } => Values {
            refusal: u8::from(why),
            verdict: 0,
            grower: 0,
            pilot: 0,
            deal: Deal::Tariff,
            count: 0,
            worth: NO_WORTH,
        },
        Verdict::Sound { count, worth } => Values {
            refusal: 0,
            verdict: 1,
            grower: 0,
            pilot: 0,
            deal: Deal::Tariff,
            count,
            worth,
        },
        Verdict::TariffOverCap { grower, pilot } => values(2, grower, pilot, Deal::Tariff, 0),
        Verdict::FreeOverCap { grower, pilot } => values(3, grower, pilot, Deal::Free, 0),
        Verdict::WrongPay { grower, pilot } => values(4, grower, pilot, Deal::Free, 0),
        Verdict::GrowerOverHours { grower } => values(5, grower, 0, Deal::Tariff, 0),
        Verdict::PilotOverHours { pilot } => values(6, 0, pilot, Deal::Tariff, 0),
        Verdict::Idle {
            grower,
            pilot,
            deal,
            count,
        } => values(7, grower, pilot, deal, count),
        Verdict::Blocks {
            grower,
            pilot,
            deal,
            count,
        } => values(8, grower, pilot, deal, count),
    }
}
