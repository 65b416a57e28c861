// Writing a file, so that no half of it ever stands under its name. What fails is told on standard error, with the system's reason.
use crate::links::{NewName, beside, followed};
use crate::messages::fail;
use crate::names::name_of;
use crate::printed::Told;
use crate::reading::is_dash;
use std::fs::{File, OpenOptions};
use std::io::{Error, ErrorKind, Write};
use std::os::unix::fs::OpenOptionsExt;
use std::{fs, io};

// How often a name is drawn for a new file, where others have taken the names before.
const MOST_DRAWS: usize = 100;

// The rights asked for a new file: those that the system gives to new files, or those of its owner alone until it has an old file's.
const USUAL_RIGHTS: u32 = 0o666;

const PRIVATE_RIGHTS: u32 = 0o600;

// Writes bytes to an open file and closes it: all of them are stored, or it fails.
fn store(mut file: File, bytes: &[u8]) -> io::Result<()> {
    file.write_all(bytes)?;
    file.sync_all()
}

fn create(rt: &HostRuntime, name: &str, rights: u32) -> io::Result<File> {
    OpenOptions::new()
        .write(true)
        .create_new(true)
        .mode(rights)
        .open(rt, name)
}

// A new file, and its name.
#[derive(Drop)]
struct NewFile {
    file: File,
    name: NewName,
}

// A new file beside another, under a name that nobody has.
fn new_beside(rt: &HostRuntime, target: &str, rights: u32) -> io::Result<NewFile> {
    for _ in 0..MOST_DRAWS {
        let name = beside(rt, target)?;
        match create(rt, name.as_str(), rights) {
            Ok(file) => return Ok(NewFile { file, name }),
            Err(error) if error.kind() == ErrorKind::AlreadyExists => {}
            Err(error) => return Err(error),
        }
    }
    Err(Error::from(ErrorKind::AlreadyExists))
}

// A new file in the place of an open one, with its owner and rights, or of none.
fn new_file(rt: &HostRuntime, target: &str, old: Option<&File>) -> io::Result<NewFile> {
    match old {
        None => new_beside(rt, target, USUAL_RIGHTS),
        Some(old) => {
            let new = new_beside(rt, target, PRIVATE_RIGHTS)?;
            file_modes::keep(old, &new.file);
            Ok(new)
        }
    }
}

// Writes a new file beside the one that is named, or beside the one that its link leads to, and gives it that name once it is whole: the
// old one stays as it was until then. Where that fails the new file is removed.
fn replace(rt: &HostRuntime, name: &str, old: Option<&File>, bytes: &[u8]) -> io::Result<()> {
    let link = followed(rt, name)?;
    let target = match &link {
        Some(path) => path.as_str(),
        None => name,
    };
    let NewFile { file, name: new } = new_file(rt, target, old)?;
    let mut done = store(file, bytes);
    if done.is_ok() {
        done = fs::rename(rt, new.as_str(), target);
    }
    if done.is_err() {
        let _ = fs::remove_file(rt, new.as_str());
    }
    done
}

// A device or a pipe is written to, since a renamed file would take its place.
fn write_over(rt: &HostRuntime, name: &str, mut old: File, bytes: &[u8]) -> io::Result<()> {
    if file_modes::is_file(&old)? {
        return replace(rt, name, Some(&old), bytes);
    }
    old.write_all(bytes)
}

// An open for appending leaves a file as it is, and waits for a pipe's reader.
fn open_append(rt: &HostRuntime, name: &str) -> io::Result<File> {
    OpenOptions::new().append(true).open(rt, name)
}

fn write_to(rt: &HostRuntime, name: &[u8], bytes: &[u8]) -> io::Result<()> {
    let name = name_of(name)?;
    match open_append(rt, name) {
        Ok(old) => write_over(rt, name, old, bytes),
        Err(error) if error.kind() == ErrorKind::NotFound => replace(rt, name, None, bytes),
        Err(error) => Err(error),
    }
}

// What failed is told.
fn tell(rt: &HostRuntime, name: &[u8], done: io::Result<()>) -> Result<(), Told> {
    match done {
        Ok(()) => Ok(()),
        Err(error) => {
            fail(rt, name, error);
            Err(Told)
        }
    }
}

// Writes the file of a name, which is free or that of a file that can be written.
pub fn write_named(rt: &HostRuntime, name: &[u8], bytes: &[u8]) -> Result<(), Told> {
    tell(rt, name, write_to(rt, name, bytes))
}

// The same, or standard output where the name is `-`.
pub fn write(rt: &HostRuntime, name: &[u8], bytes: &[u8]) -> Result<(), Told> {
    if is_dash(name) {
        return tell(rt, name, rt.stdout().write_all(bytes));
    }
    write_named(rt, name, bytes)
}
