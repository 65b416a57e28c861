// Prices in eighteenths of a euro as whole euros: a price is moved up by a number and rounded down. The number is one that makes no
// price whole, so that all are cut at a place where none of them lies.
#![tactic(auto)]

ghost use Rattle.std.specs.Prelude.{◌≡◌, ◌≤◌, min};
ghost use Rattle.euros.specs.Euros.{euros_of, clash_of, shift_of};

// A price moved up by `shift`, in whole euros.
pub fn whole_euros(price: u32, shift: u32) -> u32
    ensures { result ≡ euros_of price shift }
{
    ((u64::from(price) + u64::from(shift)) / 18) as u32
}

// The first pilot whose price, moved up by `shift`, is a whole number of euros; `pilots` if there is none.
fn clash(pilots: usize, price: [u32; 16], shift: u32) -> usize
    requires { pilots ≤ 16 }
    ensures { result ≡ clash_of price pilots shift }
{
    price[..pilots]
        .iter()
        .position(|&p| (u64::from(p) + u64::from(shift)) % 18 == 0)
        .unwrap_or(pilots)
}

// The first number that makes no price of the first pilots, at most 16, a whole number of euros; 17 if none below does.
pub fn rounding(pilots: usize, price: [u32; 16]) -> u32
    ensures { result ≡ shift_of price (min 16 pilots) }
{
    let end = numbers::within(pilots);
    (0..17u32)
        .find(|&shift| end <= clash(end, price, shift))
        .unwrap_or(17)
}
