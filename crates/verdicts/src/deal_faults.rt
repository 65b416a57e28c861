// The tests of a deal: verdicts 7 and 8.
ghost use Rattle.std.specs.Prelude.{◌≡◌, ◌+◌};
ghost use Rattle.verdicts.specs.Tests.{idle_test, below, both_below, outweighs, blocks_test};
ghost use Rattle.verdicts.specs.Faults.{deal_fault};

use crate::Verdict;
use market::Deal;

fn idle(hours: u16, cap: u16, free_of_grower: u16, free_of_pilot: u16) -> bool
    ensures { result ≡ idle_test hours cap free_of_grower free_of_pilot }
{
    hours < cap && (0 < free_of_grower && 0 < free_of_pilot)
}

fn below(spare: Option<u16>, amount: u16) -> bool
    ensures { result ≡ below spare amount }
{
    spare.is_some_and(|worth| worth < amount)
}

fn both_below(of_grower: Option<u16>, of_pilot: Option<u16>, amount: u16) -> bool
    ensures { result ≡ both_below of_grower of_pilot amount }
{
    match (of_grower, of_pilot) {
        (Some(w), Some(v)) => u32::from(w) + u32::from(v) < u32::from(amount),
        _ => false,
    }
}

// An hour more of a deal outweighs two spares.
fn outweighs(
    deal: Deal,
    of_grower: Option<u16>,
    of_pilot: Option<u16>,
    gain: u16,
    pay: u16,
    joint_gain: u16,
) -> bool
    ensures { result ≡ outweighs deal of_grower of_pilot gain pay joint_gain }
{
    match deal {
        Deal::Tariff => below(of_grower, gain) && below(of_pilot, pay),
        Deal::Free => both_below(of_grower, of_pilot, joint_gain),
    }
}

fn blocks(
    deal: Deal,
    hours: u16,
    cap: u16,
    of_grower: Option<u16>,
    of_pilot: Option<u16>,
    gain: u16,
    pay: u16,
    joint_gain: u16,
) -> bool
    ensures { result ≡ blocks_test deal hours cap of_grower of_pilot gain pay joint_gain }
{
    hours < cap && outweighs(deal, of_grower, of_pilot, gain, pay, joint_gain)
}

// The fault of a deal, by its hours and cap, both parties' free hours and cheapest spares, and what an hour more earns: the tariff's gain
// and pay, or the joint gain.
pub fn deal_fault(
    grower: usize,
    pilot: usize,
    deal: Deal,
    count: usize,
    hours: u16,
    cap: u16,
    free_of_grower: u16,
    free_of_pilot: u16,
    of_grower: Option<u16>,
    of_pilot: Option<u16>,
    gain: u16,
    pay: u16,
    joint_gain: u16,
) -> Option<Verdict>
    ensures { result ≡ deal_fault grower pilot deal count hours cap free_of_grower free_of_pilot of_grower of_pilot gain pay joint_gain }
{
    if idle(hours, cap, free_of_grower, free_of_pilot) {
        let verdict = Verdict::Idle {
            grower,
            pilot,
            deal,
            count,
        };
        return Some(verdict);
    }
    if blocks(deal, hours, cap, of_grower, of_pilot, gain, pay, joint_gain) {
        let verdict = Verdict::Blocks {
            grower,
            pilot,
            deal,
            count,
        };
        return Some(verdict);
    }
    None
}
