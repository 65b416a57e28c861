// The number of a verdict: its values side by side. The number of its worth.
ghost use Rattle.std.specs.Prelude.{◌≡◌, ◌<◌};
ghost use Rattle.verdicts.specs.Values.{Bounded};
ghost use Rattle.marker.specs.Marked.{marked_values};
ghost use Rattle.marker.specs.Verdict.{deal_number};
ghost use Rattle.c_answers.specs.Marks.{mark_number, worth_number, worth_end};

use market::Deal;
use verdicts::Values;

// What one unit of each field weighs.
const GROWER: u64 = 0x100;

const PILOT: u64 = 0x1_0000;

const DEAL: u64 = 0x100_0000;

const COUNT: u64 = 0x1_0000_0000;

const REFUSAL: u64 = 0x100_0000_0000_0000;

fn deal_number(deal: Deal) -> u64
    ensures { (result ≡ deal_number deal) × (result < 2) }
{
    match deal {
        Deal::Tariff => 0,
        Deal::Free => 1,
    }
}

// The values of the verdict on a settlement of a ticket.
fn marked_values(ticket: &[u8], settlement: &[u8]) -> Values
    ensures { result ≡ marked_values ticket.now settlement.now }
{
    verdicts::values_of(marker::mark(ticket, settlement))
}

// The values of a verdict side by side.
fn values_number(values: Values) -> u64
    requires { Bounded values }
    ensures { result ≡ mark_number values }
{
    let deal = values.deal;
    // `as`: a usize is no `From` of u64
    let parties = values.grower as u64 * GROWER + values.pilot as u64 * PILOT;
    let places = parties + deal_number(deal) * DEAL;
    let answer = u64::from(values.verdict) + u64::from(values.refusal) * REFUSAL;
    answer + places + values.count as u64 * COUNT
}

// The refusal above the worth.
fn values_worth(values: Values) -> u64
    requires { values.worth < worth_end }
    ensures { result ≡ worth_number values }
{
    values.worth + u64::from(values.refusal) * REFUSAL
}

// The number of the verdict on a settlement of a ticket.
pub fn mark_number(ticket: &[u8], settlement: &[u8]) -> u64
    ensures { result ≡ mark_number (marked_values ticket.now settlement.now) }
{
    values_number(marked_values(ticket, settlement))
}

// The number of the worth that is given with it.
pub fn worth_number(ticket: &[u8], settlement: &[u8]) -> u64
    ensures { result ≡ worth_number (marked_values ticket.now settlement.now) }
{
    values_worth(marked_values(ticket, settlement))
}
