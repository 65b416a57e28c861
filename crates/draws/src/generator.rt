// The generator: the minimal standard one of Park and Miller, with the multiplier 48271, also known as `minstd_rand`.
ghost use Rattle.std.specs.Prelude.{◌≡◌};
ghost use Rattle.draws.specs.Generator as generated;

const MULTIPLIER: u32 = 48271;

// The prime 2^31 - 1.
const PRIME: u64 = 2147483647;

fn times(x: u32, y: u32) -> u32
    ensures { result ≡ generated.times x y }
{
    (u64::from(x) * u64::from(y) % PRIME) as u32
}

pub(crate) fn next(x: u32) -> u32
    ensures { result ≡ generated.next x }
{
    times(x, MULTIPLIER)
}

// The fifth power of a number that is 1 to the prime less one.
pub(crate) fn start(seed: u64) -> u32
    ensures { result ≡ generated.start seed }
{
    let x = (seed % (PRIME - 1) + 1) as u32;
    let square = times(x, x);
    times(times(square, square), x)
}
