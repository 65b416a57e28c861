// What the exchange takes of a pilot's pay: a rate on each band of it. A list of bands has upper bounds in cents and rates in per mille
// in turn; charges are in thousandths of a cent until they are rounded.
#![tactic(auto)]

ghost use Rattle.std.specs.Prelude.{◌≡◌, ◌-◌, ◌*◌, ◌≤◌};
ghost use Rattle.commission.specs.Bands.{charged_between, charged, rounded_cents, exchange_bands, commission};

// The charge on the cents from `low` up to `high`.
fn between(low: u32, high: u32, rate: u32) -> u64
    ensures { (result ≡ charged_between low high rate) × (result ≤ 1000 * (high - low)) }
{
    u64::from(high.saturating_sub(low)) * u64::from(rate.min(1000))
}

// What bands charge on `x` cents, at most 1,000 per mille. By place: a band is two numbers, and the last one is known by its place.
pub fn charge(bands: &[u32], x: u32) -> u64
    ensures { (result ≡ charged bands.now x) × (result ≤ 1000 * x) }
{
    let mut low: u32 = 0;
    let mut total: u64 = 0;
    for k in 0..bands.len() / 2 {
        let at = 2 * k;
        let bound = bands[at];
        let rate = bands[at + 1];
        if at + 2 == bands.len() {
            return total + between(low, x, rate);
        }
        let high = low.max(bound);
        total = total + between(low, x.min(high), rate);
        low = high;
    }
    total
}

// Thousandths of a cent in cents, a half going up. The rest is rounded by itself, so that no sum wraps.
pub fn rounded(t: u64) -> u64
    ensures { result ≡ rounded_cents t }
{
    t / 1000 + (t % 1000 + 500) / 1000
}

// The bands of the exchange.
pub fn bands() -> [u32; 6]
    ensures { result ≡ exchange_bands }
{
    [20000, 65, 80000, 42, 4294967295, 25]
}

// The commission on a pay, both in cents. It is never more than the pay, so it fits.
pub fn commission(x: u32) -> u32
    ensures { result ≡ commission x }
{
    let bands = bands();
    rounded(charge(&bands, x)) as u32
}
