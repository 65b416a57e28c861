// Bytes of a text: the front of some bytes, and the decimal digits of a number; and, for the proofs of what is printed, lines and what
// writing leaves.
#![tactic(auto)]

mod digits;

ghost use Rattle.std.specs.Prelude.{◌≡◌, take};

pub use digits::numeral;

// The first `count` bytes, all if there are fewer.
pub fn front<'a>(bytes: &'a [u8], count: usize) -> &'a [u8]
    ensures { result.now ≡ take count bytes.now }
{
    &bytes[..count.min(bytes.len())]
}
