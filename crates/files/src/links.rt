// Names of files: the name that a symbolic link leads to, and a name beside another. The library alone asks for memory here, for the text of
// a link.
use crate::names::{MOST_BYTES, too_long};
use arrayvec::ArrayString;
use std::fs;
use std::io::Result;
use std::random::RandomSource;

// The most links that are followed one after another, as many as Linux follows.
const MOST_LINKS: usize = 40;

const LONGEST_NAME: usize = MOST_BYTES - 1;

type Name = ArrayString<LONGEST_NAME>;

// Where the text of a link leads: a text that begins with `/` is a name of its own, any other is one in the link's folder.
fn led_to(link: &str, text: &str) -> Result<Name> {
    let mut name = Name::new();
    let mut fits = true;
    if !text.starts_with('/') {
        if let Some((folder, _)) = link.rsplit_once('/') {
            fits = name.try_push_str(folder).is_ok() && name.try_push('/').is_ok();
        }
    }
    if fits && name.try_push_str(text).is_ok() {
        Ok(name)
    } else {
        Err(too_long())
    }
}

// The name that one link leads to; none if a name is no link's. It fails where the text is none that the library takes.
fn led_on(rt: &HostRuntime, name: &str) -> Result<Option<Name>> {
    match fs::read_link(rt, name) {
        Ok(text) => Ok(Some(led_to(name, text.as_str())?)),
        Err(error) if error.raw_os_error().is_some() => Ok(None),
        Err(error) => Err(error),
    }
}

// The name that a link leads to in the end; none if a name is no link's.
pub(crate) fn followed(rt: &HostRuntime, name: &str) -> Result<Option<Name>> {
    let mut last = led_on(rt, name)?;
    for _ in 1..MOST_LINKS {
        let next = match &last {
            Some(link) => led_on(rt, link.as_str())?,
            None => None,
        };
        if next.is_none() {
            break;
        }
        last = next;
    }
    Ok(last)
}

const LETTERS: [u8; 62] = *b"ABCDEFGHIJKLMNOPQRSTUVWXYZabcdefghijklmnopqrstuvwxyz0123456789";

// Room for a name, the dot after it and six letters.
const LONGEST_NEW: usize = LONGEST_NAME + 7;

pub(crate) type NewName = ArrayString<LONGEST_NEW>;

// A name for a new file beside another, which ends in six letters drawn by the system.
pub(crate) fn beside(rt: &HostRuntime, name: &str) -> Result<NewName> {
    let mut drawn = [0u8; 6];
    rt.fill_bytes(&mut drawn)?;
    let mut new = ArrayString::new();
    let mut fits = new.try_push_str(name).is_ok() && new.try_push('.').is_ok();
    for byte in drawn {
        let letter = char::from(LETTERS[usize::from(byte) % 62]);
        fits = fits && new.try_push(letter).is_ok();
    }
    if fits { Ok(new) } else { Err(too_long()) }
}
