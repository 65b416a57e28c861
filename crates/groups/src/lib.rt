// Numbers as groups of seven bits, low group first: reading one at a place, and how many bytes it takes.
#![tactic(auto)]

ghost use Rattle.std.specs.Prelude.{◌≡◌, ◌^◌, ◌<◌, ltb, length, drop};
ghost use Rattle.groups.specs.Groups.{encode, bytes, groups, placed};

// The most groups of a number. `groups` of specs/Groups.antt is the same number.
const GROUPS: usize = 2;

// The first number that needs more groups: 128 to the power of `GROUPS`.
const TOO_LONG: usize = 128 * 128;

// What reading a number at a place finds: its value and the place after it, or why there is none.
// An enum and no `Result`: a caller tells all four cases apart, and one of them has two numbers.
#[derive(Clone, Copy)]
pub enum Got {
    Number { value: usize, next: usize },
    Ends,
    TooLong,
    Padded,
}

// The number that starts at a place, group by group. Each group weighs 128 times the last; a last group after the first is not 0.
pub fn number(s: &[u8], at: usize) -> Got
    ensures { result ≡ placed (length s.now) (bytes (drop at s.now)) }
{
    // first, so that no place of a group wraps
    if s.len() <= at {
        return Got::Ends;
    }
    let mut value: usize = 0;
    let mut weight: usize = 1;
    let mut least: usize = 0;
    // By k, not over the bytes: that there is no byte at `at + k` is an answer too.
    for k in 0..GROUPS {
        let here = at + k;
        if s.len() <= here {
            return Got::Ends;
        }
        let b = usize::from(s[here]);
        if b < 128 {
            if b < least {
                return Got::Padded;
            }
            return Got::Number {
                value: value + weight * b,
                next: here + 1,
            };
        }
        value = value + weight * (b % 128);
        weight = weight * 128;
        least = 1;
    }
    Got::TooLong
}

// Whether a number needs no more groups than there may be.
pub fn fits(x: usize) -> bool
    ensures { result ≡ ltb x (128 ^ groups) }
{
    x < TOO_LONG
}

// How many bytes a number takes, which are at most three for 16 bits.
pub fn size(x: u16) -> usize
    ensures { result ≡ length (encode x) }
{
    if x < 128 {
        1
    } else if x < 16384 {
        2
    } else {
        3
    }
}
