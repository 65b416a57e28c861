// The exit status, as that of grep and cmp.
use verdicts::Verdict;

// Done, or sound; not sound; refused, wrongly used, or failed by the system. The later is the worse.
#[derive(Clone, Copy, Debug, PartialEq, Eq, PartialOrd, Ord)]
pub enum Status {
    Done,
    NotSound,
    Failed,
}

impl From<Status> for u8 {
    fn from(status: Status) -> u8 {
        status as u8
    }
}

impl From<Verdict> for Status {
    fn from(verdict: Verdict) -> Status {
        match verdict {
            Verdict::Refused { .. } => Status::Failed,
            Verdict::Sound { .. } => Status::Done,
            _ => Status::NotSound,
        }
    }
}
