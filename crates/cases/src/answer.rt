// How the answers of the operations are printed.
use market::Deal;
use reader::Refusal;
use report::{
    done_bytes, done_numbers, done_text, refused, refused_bytes, refused_numbers, verdict, worth,
};
use verdicts::Verdict;

// A reply, and what it left in the lent list or buffer.
pub(crate) fn with_numbers(reply: Result<usize, Refusal>, lent: &[u16]) {
    match reply {
        Err(why) => refused_numbers(u8::from(why), lent),
        Ok(count) => done_numbers(count, lent),
    }
}

pub(crate) fn with_bytes(reply: Result<usize, Refusal>, lent: &[u8]) {
    match reply {
        Err(why) => refused_bytes(u8::from(why), lent),
        Ok(count) => done_bytes(count, lent),
    }
}

pub(crate) fn with_text(reply: Result<usize, Refusal>, lent: &[u8]) {
    match reply {
        Err(why) => refused_bytes(u8::from(why), lent),
        Ok(count) => done_text(count, lent),
    }
}

pub(crate) fn judged(answer: Verdict) {
    let values = verdicts::values_of(answer);
    if values.verdict == 0 {
        refused(values.refusal);
        return;
    }
    verdict(
        usize::from(values.verdict),
        values.grower,
        values.pilot,
        values.deal == Deal::Free,
        values.count,
    );
}

// The verdict by its number alone, with its worth.
pub(crate) fn with_worth(answer: Verdict) {
    let values = verdicts::values_of(answer);
    if values.verdict == 0 {
        refused(values.refusal);
        return;
    }
    worth(usize::from(values.verdict), values.worth);
}
