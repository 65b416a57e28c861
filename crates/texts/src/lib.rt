// What marking answered, as a line; and what refusals and verdicts mean, in words.
#![tactic(auto)]

mod marks; // marks.rt: the line that tells what marking answered
mod meanings; // meanings.rt: the words of refusals and verdicts

pub use marks::{LINE, mark_line};
pub use meanings::{TEXT, telling};

// What a number stands for.
#[derive(Clone, Copy)]
pub enum Meaning {
    Refusal,
    Verdict,
}
