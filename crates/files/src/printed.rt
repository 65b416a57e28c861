// Texts, and how one is printed: it is gathered in a buffer, and written when that is full or the text is done. No contract can say what
// the system writes.
use crate::reasons::{is_unread, tell};
use std::fmt;
use std::io::{BufWriter, Result, Write};

// What is printed: anything that has a `Display`, and what holds names of files or other bytes that need not be UTF-8.
pub trait Text {
    fn write<W: Write>(&self, out: &mut W) -> Result<()>;
}

impl<T: fmt::Display> Text for T {
    fn write<W: Write>(&self, out: &mut W) -> Result<()> {
        write!(out, "{self}")
    }
}

// What failed was told on standard error already.
#[derive(Clone, Copy, Debug, PartialEq, Eq)]
pub struct Told;

// Most texts are shorter, and so are written at once.
const PAGE: usize = 65536;

// Writes a text, and what fails is not tried again. Where there is no memory for the buffer its parts are written one by one.
pub(crate) fn write_text<W: Write + Drop>(
    rt: &HostRuntime,
    mut out: W,
    text: &impl Text,
) -> Result<()> {
    let Ok(mut page) = BufWriter::with_capacity(rt.alloc(), PAGE, &mut out) else {
        return text.write(&mut out);
    };
    let mut done = text.write(&mut page);
    if done.is_ok() {
        done = page.flush();
    }
    let _unwritten = page.into_parts();
    done
}

// Prints a text on standard output. A write that fails is told on standard error, since a text that was cut short looks whole.
pub fn print(rt: &HostRuntime, text: &impl Text) -> std::result::Result<(), Told> {
    match write_text(rt, rt.stdout(), text) {
        Ok(()) => Ok(()),
        Err(error) => {
            if !is_unread(&error) {
                tell(rt, b"exchange: standard output", error);
            }
            Err(Told)
        }
    }
}
