// What a number of the generator is reduced to.
ghost use Rattle.std.specs.Prelude.{◌≡◌};
ghost use Rattle.draws.specs.Drawn.{hours_from, cap_from, tariff_amount, joint_amount};

// Amounts are multiples of this.
const STEP: u16 = 25;

pub(crate) fn hours(x: u32) -> u16
    ensures { result ≡ hours_from x }
{
    (x % 21) as u16
}

// A cap; 0, if somebody of the pair has no hours.
pub(crate) fn cap(none: bool, x: u32) -> u16
    ensures { result ≡ cap_from none x }
{
    if none {
        return 0;
    }
    let eighth = x % 8;
    if eighth == 0 { 0 } else { (eighth - 1) as u16 }
}

pub(crate) fn tariff_amount(cap: u16, x: u32) -> u16
    ensures { result ≡ tariff_amount cap x }
{
    if cap == 0 { 0 } else { STEP * (x % 11) as u16 }
}

pub(crate) fn joint_amount(cap: u16, x: u32) -> u16
    ensures { result ≡ joint_amount cap x }
{
    if cap == 0 { 0 } else { STEP * (x % 21) as u16 }
}
