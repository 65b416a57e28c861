// What marking says of a settlement, and the tests on plain numbers that lead to it: of a pair, of a deal, and of spare hours.
#![tactic(auto)]

mod cheap_spares;
mod deal_faults;
mod pair_faults;
mod paper;

pub use cheap_spares::cheapest_spare;
use checks::Refusal;
pub use deal_faults::deal_fault;
use market::Deal;
pub use pair_faults::pair_fault;
pub use paper::values_of;

// The answer of marking. A fault names the grower, the pilot and the deal; the count is the number of deals looked at in the last walk. The
// worth of a sound settlement is 0 where a tariff cap is above 0.
#[derive(Clone, Copy, Debug, PartialEq, Eq)]
pub enum Verdict {
    Refused {
        why: Refusal,
    },
    Sound {
        count: usize,
        worth: u64,
    },
    TariffOverCap {
        grower: usize,
        pilot: usize,
    },
    FreeOverCap {
        grower: usize,
        pilot: usize,
    },
    WrongPay {
        grower: usize,
        pilot: usize,
    },
    GrowerOverHours {
        grower: usize,
    },
    PilotOverHours {
        pilot: usize,
    },
    Idle {
        grower: usize,
        pilot: usize,
        deal: Deal,
        count: usize,
    },
    Blocks {
        grower: usize,
        pilot: usize,
        deal: Deal,
        count: usize,
    },
}

// The paper's number and values of a verdict. Places that it has no use for are 0, and the deal is then tariff.
#[derive(Clone, Copy, Debug, PartialEq, Eq)]
pub struct Values {
    pub refusal: u8,
    pub verdict: u8,
    pub grower: usize,
    pub pilot: usize,
    pub deal: Deal,
    pub count: usize,
    pub worth: u64,
}
