// The system's reasons, told on standard error. They take no memory, for want of which a call may have failed.
use crate::printed::{Text, write_text};
use arrayvec::ArrayString;
use std::fmt::Write as _;
use std::io::{Error, ErrorKind, Result, Write};

// Whether nobody reads any more what was to be written. The reader wanted no more of it, so that is not told.
pub(crate) fn is_unread(error: &Error) -> bool {
    error.kind() == ErrorKind::BrokenPipe
}

// Room for what the library says of an error.
const MOST_TOLD: usize = 256;

// The system's reason. After it the library writes its number, in brackets, which no message has.
#[derive(Drop)]
pub(crate) struct Reason {
    text: ArrayString<MOST_TOLD>,
    numbered: bool,
}

impl Reason {
    pub(crate) fn of(error: &Error) -> Reason {
        let mut text = ArrayString::new();
        let _ = write!(text, "{error}");
        Reason {
            text,
            numbered: error.raw_os_error().is_some(),
        }
    }

    pub(crate) fn as_str(&self) -> &str {
        let text = self.text.as_str();
        match text.rsplit_once(" (") {
            Some((reason, _)) if self.numbered => reason,
            _ => text,
        }
    }
}

// What failed, and why.
#[derive(Clone, Copy)]
struct Failure<'a> {
    what: &'a [u8],
    reason: &'a str,
}

impl<'a> Text for Failure<'a> {
    fn write<W: Write>(&self, out: &mut W) -> Result<()> {
        out.write_all(self.what)?;
        out.write_all(b": ")?;
        out.write_all(self.reason.as_bytes())?;
        out.write_all(b"\n")
    }
}

// Says what failed, as the caller names it, and the system's reason.
pub fn tell(rt: &HostRuntime, what: &[u8], error: Error) {
    let told = Reason::of(&error);
    let reason = told.as_str();
    let _ = write_text(rt, rt.stderr(), &Failure { what, reason });
}
