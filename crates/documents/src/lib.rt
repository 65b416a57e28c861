// The two documents, a ticket and a settlement, number by number: mathematics only. Its definitions stand in specs/, its laws in proofs/.
#![tactic(auto)]

// How many numbers a document has before its growers and pilots are known.
pub const HEAD: usize = 3;

// How far a document is read: the place, and of what was read the numbers that later checks need.
#[derive(Clone, Copy)]
pub struct State {
    pub place: usize,
    pub growers: usize,
    pub pilots: usize,
    pub without: u32, // who has no hours, of the parties whose hours were read
    pub none: bool, // whether somebody of the pair at hand has none
    pub cap: usize, // the last cap
}
