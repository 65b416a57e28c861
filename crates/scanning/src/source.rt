// What a document is read from: a number at each place, and how many places there are. Bytes hold numbers in groups, a list plain ones.
ghost use Rattle.std.specs.Prelude.{◌≡◌, List, ℕ, length, drop};
ghost use Rattle.groups.specs.Groups.{Read, bytes, placed};
ghost use Rattle.documents.specs.Walk.{read_head};
ghost use Rattle.scanning.specs.Sources.{Ending, bytes-ending, head_ending};

use groups::{Got, number};

pub trait Source: Copy {
    // How the next number is read from what is left, and all that there is.
    ghost read: { List ℕ → Read };

    ghost held: { Self → List ℕ };

    fn places(self) -> usize
        ensures { result ≡ length (held self) };

    fn number_at(self, at: usize) -> Got
        ensures { result ≡ placed (length (held self)) (read (drop at (held self))) };

    // What is left after a number is an end of what there was before it.
    ghost ending: { Ending read };
}

impl<'a> Source for &'a [u8] {
    ghost read = { bytes };

    ghost held = { λ s. s.now };

    ghost ending = { bytes-ending };

    fn places(self) -> usize {
        self.len()
    }

    fn number_at(self, at: usize) -> Got {
        number(self, at)
    }
}

impl<'a> Source for &'a [u16] {
    ghost read = { read_head };

    ghost held = { λ list. list.now };

    ghost ending = { head_ending };

    fn places(self) -> usize {
        self.len()
    }

    fn number_at(self, at: usize) -> Got {
        if at < self.len() {
            Got::Number {
                value: usize::from(self[at]),
                next: at + 1,
            }
        } else {
            Got::Ends
        }
    }
}
