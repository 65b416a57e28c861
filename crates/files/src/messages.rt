// Messages, on standard error. Each is a line that begins with `exchange: `.
use crate::printed::{Text, write_text};
use crate::reasons::{Reason, is_unread};
use std::io::{Error, Result, Write};

// What is said of a file, after the name that the user gave it.
#[derive(Clone, Copy)]
pub struct About<'a, T> {
    pub name: &'a [u8],
    pub text: T,
}

impl<'a, T: Text> Text for About<'a, T> {
    fn write<W: Write>(&self, out: &mut W) -> Result<()> {
        out.write_all(self.name)?;
        out.write_all(b": ")?;
        self.text.write(out)
    }
}

// The line of a message.
#[derive(Drop)]
struct Line<'a, T> {
    text: &'a T,
}

impl<'a, T: Text> Text for Line<'a, T> {
    fn write<W: Write>(&self, out: &mut W) -> Result<()> {
        out.write_all(b"exchange: ")?;
        self.text.write(out)?;
        out.write_all(b"\n")
    }
}

// Writes a message. That it can not be written is told nowhere.
pub fn message(rt: &HostRuntime, text: &impl Text) {
    let _ = write_text(rt, rt.stderr(), &Line { text });
}

// Which file a call of the system failed on, and the system's reason.
pub fn fail(rt: &HostRuntime, name: &[u8], error: Error) {
    if is_unread(&error) {
        return;
    }
    let reason = Reason::of(&error);
    let text = reason.as_str();
    message(rt, &About { name, text });
}
