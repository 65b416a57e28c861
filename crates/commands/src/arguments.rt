// The arguments of the program. Argument 0 is its own name.
ghost use Rattle.std.specs.Prelude.{◌≤◌, length};

use std::rt::Env;

// Puts an argument at the front of a buffer, and returns its length: 0 where it is missing or too long.
pub fn argument(rt: &HostRuntime, place: usize, word: &mut [u8]) -> usize
    ensures { result ≤ length word.new }
{
    rt.arg(place, word).unwrap_or(0)
}
