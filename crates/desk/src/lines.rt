// What has been read of a line, without its end.

// The most bytes of a line.
pub(crate) const LONGEST: usize = 4096;

// Its bytes, and how many there are. One that is too long stays so, whatever follows.
#[derive(Clone, Copy)]
pub(crate) struct Line {
    bytes: [u8; LONGEST],
    length: usize,
}

impl Line {
    pub(crate) fn empty() -> Line {
        Line {
            bytes: [0; LONGEST],
            length: 0,
        }
    }

    pub(crate) fn clear(&mut self) {
        self.length = 0;
    }

    pub(crate) fn extend(&mut self, more: &[u8]) {
        for &byte in more {
            if self.length < LONGEST {
                self.bytes[self.length] = byte;
                self.length += 1;
            } else {
                self.length = LONGEST + 1;
            }
        }
    }

    // The whole line, unless it is too long.
    pub(crate) fn text(&self) -> Option<&[u8]> {
        self.bytes.get(..self.length)
    }
}
