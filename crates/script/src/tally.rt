// How many cases were run, and how many lines were not understood.
#[derive(Clone, Copy)]
pub struct Tally {
    pub cases: usize,
    pub unknown: usize,
}

pub fn nothing_counted() -> Tally {
    Tally {
        cases: 0,
        unknown: 0,
    }
}

fn next(x: usize) -> usize {
    if x < 65536 { x + 1 } else { x }
}

pub fn counted(tally: Tally, understood: bool) -> Tally {
    if understood {
        Tally {
            cases: next(tally.cases),
            unknown: tally.unknown,
        }
    } else {
        Tally {
            cases: tally.cases,
            unknown: next(tally.unknown),
        }
    }
}
