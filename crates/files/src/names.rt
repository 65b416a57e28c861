// Names of files as the library takes them.
use std::io::{Error, ErrorKind, Result};

// A name has fewer bytes, as the system wants it.
pub(crate) const MOST_BYTES: usize = 4096;

// The system's numbers of what is wrong with a name.
const NO_VALID_ARGUMENT: i32 = 22;

const NAME_TOO_LONG: i32 = 36;

pub(crate) fn too_long() -> Error {
    Error::from_raw_os_error(NAME_TOO_LONG)
}

// A name as text. The library opens no file whose name is not UTF-8.
pub(crate) fn name_of(name: &[u8]) -> Result<&str> {
    if MOST_BYTES <= name.len() {
        return Err(too_long());
    }
    if name.contains(&0) {
        return Err(Error::from_raw_os_error(NO_VALID_ARGUMENT));
    }
    match std::str::from_utf8(name) {
        Ok(text) => Ok(text),
        Err(_) => Err(Error::from(ErrorKind::InvalidFilename)),
    }
}
