// The tests of a pair: verdicts 2 to 4.
ghost use Rattle.std.specs.Prelude.{◌≡◌};
ghost use Rattle.verdicts.specs.Tests.{pay_test};
ghost use Rattle.verdicts.specs.Faults.{pair_fault};

use crate::Verdict;

fn wrong_pay(gain: u16, hours: u16, pay: u16) -> bool
    ensures { result ≡ pay_test gain hours pay }
{
    gain < pay || (hours == 0 && 0 < pay)
}

// The fault of a pair, by its hours, caps, pay and joint gain. A cap of 0 allows no hours.
pub fn pair_fault(
    grower: usize,
    pilot: usize,
    tariff_hours: u16,
    tariff_cap: u16,
    free_deal_hours: u16,
    free_cap: u16,
    pay: u16,
    joint_gain: u16,
) -> Option<Verdict>
    ensures { result ≡ pair_fault grower pilot tariff_hours tariff_cap free_deal_hours free_cap pay joint_gain }
{
    if tariff_cap < tariff_hours {
        let verdict = Verdict::TariffOverCap { grower, pilot };
        return Some(verdict);
    }
    if free_cap < free_deal_hours {
        let verdict = Verdict::FreeOverCap { grower, pilot };
        return Some(verdict);
    }
    if wrong_pay(joint_gain, free_deal_hours, pay) {
        let verdict = Verdict::WrongPay { grower, pilot };
        return Some(verdict);
    }
    None
}
