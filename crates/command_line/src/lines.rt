// The line on which a number of a text stands. Numbers of documents are told from the numbers of growers, pilots and pairs in a text with
// words by where they stand.
use layouts::Layout;

// What the last byte was.
#[derive(Clone, Copy, Debug, PartialEq, Eq)]
enum Inside {
    Blanks,
    Word,
    Comment,
}

// How far a text is read: on which line, how many numbers have begun, and whether words have.
#[derive(Clone, Copy)]
struct Walk {
    line: usize,
    numbers: usize,
    worded: bool,
    inside: Inside,
}

const START: Walk = Walk {
    line: 1,
    numbers: 0,
    worded: false,
    inside: Inside::Blanks,
};

impl Walk {
    // The first byte of a number or a word.
    fn begin(&mut self, byte: u8) {
        self.inside = Inside::Word;
        if byte.is_ascii_digit() {
            self.numbers = self.numbers.saturating_add(1);
        } else {
            self.worded = true;
        }
    }

    fn take(&mut self, byte: u8) {
        match byte {
            b'\n' => {
                self.line = self.line.saturating_add(1);
                self.inside = Inside::Blanks;
            }
            _ if self.inside == Inside::Comment => {}
            b'#' => self.inside = Inside::Comment,
            b' ' | 9..=13 => self.inside = Inside::Blanks,
            _ if self.inside == Inside::Word => {}
            _ => self.begin(byte),
        }
    }
}

// Walks a text to the start of a number, or to the end if it has fewer. Numbers count from 0.
fn walked(text: &[u8], number: usize) -> Walk {
    let mut walk = START;
    for &byte in text {
        walk.take(byte);
        if number < walk.numbers {
            return walk;
        }
    }
    walk
}

// The line of a number of a text, as all numbers are counted.
pub(crate) fn line_of(text: &[u8], number: usize) -> usize {
    walked(text, number).line
}

// Which number of a text with words is that at a place of a ticket: a party has one number more there, and a pair two.
fn in_ticket(growers: u16, pilots: u16, place: usize) -> usize {
    let parties = usize::from(growers) + usize::from(pilots);
    let pairs = 3 + parties;
    if place < 3 {
        return place;
    }
    if 65536 < place {
        return place;
    }
    if place < pairs {
        return place + (place - 2);
    }
    place + parties + (place - pairs) / 5 * 2 + 2
}

fn in_settlement(place: usize) -> usize {
    if place < 3 {
        return place;
    }
    if 65536 < place {
        return place;
    }
    place + (place - 3) / 3 * 2 + 2
}

fn in_text(layout: Layout, growers: u16, pilots: u16, place: usize) -> usize {
    match layout {
        Layout::Ticket => in_ticket(growers, pilots, place),
        Layout::Settlement => in_settlement(place),
    }
}

// The line of the number at a place of a document, in a text with words or without.
pub(crate) fn line_in_document(
    text: &[u8],
    layout: Layout,
    growers: u16,
    pilots: u16,
    place: usize,
) -> usize {
    if walked(text, usize::MAX).worded {
        return line_of(text, in_text(layout, growers, pilots, place));
    }
    line_of(text, place)
}
