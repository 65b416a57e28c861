// The verdict on a settlement of a ticket: pairs, then hours, then deals.
ghost use Rattle.std.specs.Prelude.{◌≡◌, ◌≤◌};
ghost use Rattle.market.specs.Tables.{ticket_in, settlement_in};
ghost use Rattle.tables.specs.View.{growers_of, pilots_of, ticket_of, settlement_of};
ghost use Rattle.marker.specs.Verdict.{hours_judged, judged};
ghost use Rattle.marker.specs.Tables.{Origin, ticket_from, settlement_from};

use crate::Party;
use crate::deal_faults::judge_deals;
use crate::pair_faults::first_pair_fault;
use crate::parties::{first_over, parties};
use certificate::certified;
use grid::{Sides, differences, turned};
use tables::{Quantity, Side, square};
use totals::promised_worth;
use verdicts::Verdict;

// Growers over their hours, then pilots: verdicts 5 and 6; then deals.
fn judge_parties(
    sides: Sides,
    growers: [Party; 16],
    pilots: [Party; 16],
    tariff_cap: [[u16; 16]; 16],
    free_cap: [[u16; 16]; 16],
    joint_gain: [[u16; 16]; 16],
    worth: u64,
) -> Verdict
    ensures { (o : Origin sides.growers sides.pilots growers pilots tariff_cap free_cap joint_gain) →
        result ≡ hours_judged (ticket_from o) (settlement_from o) worth }
{
    let grower = first_over(growers, sides.growers);
    if grower < sides.growers {
        return Verdict::GrowerOverHours { grower: grower };
    }
    let pilot = first_over(pilots, sides.pilots);
    if pilot < sides.pilots {
        return Verdict::PilotOverHours { pilot: pilot };
    }
    judge_deals(
        sides, growers, pilots, tariff_cap, free_cap, joint_gain, worth,
    )
}

// Pairs: verdicts 2 to 4; then hours and deals.
fn judge_exactly(
    sides: Sides,
    grower_hours: [u16; 16],
    pilot_hours: [u16; 16],
    tariff_cap: [[u16; 16]; 16],
    tariff_gain: [[u16; 16]; 16],
    tariff_pay: [[u16; 16]; 16],
    free_cap: [[u16; 16]; 16],
    joint_gain: [[u16; 16]; 16],
    tariff_hours: [[u16; 16]; 16],
    free_deal_hours: [[u16; 16]; 16],
    pay: [[u16; 16]; 16],
) -> Verdict
    ensures { result ≡ judged (ticket_in sides.growers sides.pilots grower_hours pilot_hours tariff_cap tariff_gain tariff_pay free_cap joint_gain)
        (settlement_in tariff_hours free_deal_hours pay) }
{
    let n = sides.growers;
    let m = sides.pilots;
    let found = first_pair_fault(
        sides,
        tariff_cap,
        free_cap,
        joint_gain,
        tariff_hours,
        free_deal_hours,
        pay,
    );
    if let Some(verdict) = found {
        return verdict;
    }
    // what growers have of an hour of a free deal: the joint gain without the pilot's pay
    let shares = differences(joint_gain, pay, n, m);
    let growers = parties(
        n,
        m,
        grower_hours,
        tariff_hours,
        free_deal_hours,
        tariff_gain,
        shares,
    );
    // a pilot's rows are those of the squares on their side
    let by_tariff = turned(tariff_hours, n, m);
    let by_free = turned(free_deal_hours, n, m);
    let earned = turned(tariff_pay, n, m);
    let paid = turned(pay, n, m);
    let pilots = parties(m, n, pilot_hours, by_tariff, by_free, earned, paid);
    let worth = promised_worth(n, m, tariff_cap, free_deal_hours, joint_gain);
    judge_parties(
        sides, growers, pilots, tariff_cap, free_cap, joint_gain, worth,
    )
}

// What is certified is sound, which is found much sooner; else each fault is looked for in its order.
fn judge_squares(
    sides: Sides,
    grower_hours: [u16; 16],
    pilot_hours: [u16; 16],
    tariff_cap: [[u16; 16]; 16],
    tariff_gain: [[u16; 16]; 16],
    tariff_pay: [[u16; 16]; 16],
    free_cap: [[u16; 16]; 16],
    joint_gain: [[u16; 16]; 16],
    tariff_hours: [[u16; 16]; 16],
    free_deal_hours: [[u16; 16]; 16],
    pay: [[u16; 16]; 16],
) -> Verdict
    ensures { result ≡ judged (ticket_in sides.growers sides.pilots grower_hours pilot_hours tariff_cap tariff_gain tariff_pay free_cap joint_gain)
        (settlement_in tariff_hours free_deal_hours pay) }
{
    let n = sides.growers;
    let m = sides.pilots;
    if certified(
        n,
        m,
        grower_hours,
        pilot_hours,
        tariff_cap,
        tariff_gain,
        tariff_pay,
        free_cap,
        joint_gain,
        tariff_hours,
        free_deal_hours,
        pay,
    ) {
        return Verdict::Sound {
            count: 2 * numbers::pairs(n, m),
            worth: promised_worth(n, m, tariff_cap, free_deal_hours, joint_gain),
        };
    }
    judge_exactly(
        sides,
        grower_hours,
        pilot_hours,
        tariff_cap,
        tariff_gain,
        tariff_pay,
        free_cap,
        joint_gain,
        tariff_hours,
        free_deal_hours,
        pay,
    )
}

// The same of lists: each quantity of the pairs in a square of its own.
pub(crate) fn judge(ticket: &[u16], settlement: &[u16]) -> Verdict
    requires ticket_bound { (growers_of ticket.now ≤ 16) × (pilots_of ticket.now ≤ 16) }
    requires settlement_value { (growers_of settlement.now ≡ growers_of ticket.now) × (pilots_of settlement.now ≡ pilots_of ticket.now) }
    ensures { result ≡ judged (ticket_of ticket.now) (settlement_of settlement.now) }
{
    let sides = Sides {
        growers: tables::growers(ticket),
        pilots: tables::pilots(ticket),
    };
    judge_squares(
        sides,
        tables::hours(ticket, Side::Growers),
        tables::hours(ticket, Side::Pilots),
        square(ticket, Quantity::TariffCap),
        square(ticket, Quantity::TariffGain),
        square(ticket, Quantity::TariffPay),
        square(ticket, Quantity::FreeCap),
        square(ticket, Quantity::JointGain),
        square(settlement, Quantity::TariffHours),
        square(settlement, Quantity::FreeDealHours),
        square(settlement, Quantity::Pay),
    )
}
