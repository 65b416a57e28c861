// The numbers of an account in their order.
ghost use Rattle.std.specs.Prelude.{◌≡◌, ◌≤◌, get_or, []};
ghost use Rattle.accounts.specs.Accounted.{cents_of, each, gain_listed, pay_listed, padded};
ghost use Rattle.accounts.specs.Earnings.{most_earned, Small};
ghost use Rattle.accounts.specs.Listing.{Listed};

// How many numbers are listed; and the list, with zeros after them.
#[derive(Clone, Copy)]
pub struct Account {
    pub count: usize,
    pub list: [u32; 48],
}

// An account that lists nothing.
pub(crate) fn no_numbers() -> [u32; 48]
    ensures { result ≡ padded [] }
{
    [0; 48]
}

// An earning at the width of the list.
fn narrow(amount: u64) -> u32
    requires { amount ≤ most_earned }
    ensures { (result ≡ amount) × (result ≤ most_earned) }
{
    // `as`: no more than is ever earned, so that no test is left for `try_from`
    amount as u32
}

fn cents(euros: u32) -> u32
    requires { euros ≤ most_earned }
    ensures { result ≡ cents_of euros }
{
    100 * euros
}

// Lists the growers' gains first.
pub(crate) fn list_gains(list: &mut [u32; 48], gains: [u64; 16], growers: usize)
    requires { (growers ≤ 16) × Small gains growers }
    ensures { Listed list.old list.new 0 (each (λ i. gain_listed (get_or gains i 0)) growers) }
{
    // by index: a place is written where another list is read
    for i in 0..growers {
        list[i] = narrow(gains[i]);
    }
}

// Lists the pilots' pays and commissions after so many numbers.
pub(crate) fn list_pays(list: &mut [u32; 48], from: usize, pays: [u64; 16], pilots: usize)
    requires { (from ≤ 16) × (pilots ≤ 16) × Small pays pilots }
    ensures { Listed list.old list.new from (each (λ j. pay_listed (get_or pays j 0)) pilots) }
{
    // by index: two places are written for each pay
    for j in 0..pilots {
        let pay = narrow(pays[j]);
        let place = from + 2 * j;
        list[place] = pay;
        list[place + 1] = commission::commission(cents(pay));
    }
}
