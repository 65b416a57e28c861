// Reading a file, or standard input where it is named `-`. What fails in `read` is told on standard error, with the system's reason.
use crate::messages::fail;
use crate::names::name_of;
use crate::printed::Told;
use std::fs::File;
use std::io;
use std::io::Read;

pub fn is_dash(name: &[u8]) -> bool {
    name == b"-".as_slice()
}

// Reads as far as the buffer goes, and once more, for a read that fails past it.
pub fn fill(source: &mut impl Read, buffer: &mut [u8]) -> io::Result<usize> {
    let mut count = 0;
    while count < buffer.len() {
        let got = source.read(&mut buffer[count..])?;
        if got == 0 {
            break;
        }
        count += got;
    }
    let mut byte = [0u8; 1];
    source.read(&mut byte)?;
    Ok(count)
}

fn fill_from(rt: &HostRuntime, name: &[u8], buffer: &mut [u8]) -> io::Result<usize> {
    if is_dash(name) {
        return fill(&mut rt.stdin(), buffer);
    }
    let mut file = File::open(rt, name_of(name)?)?;
    fill(&mut file, buffer)
}

// What a file holds, as far as the buffer goes.
pub fn read<'a>(rt: &HostRuntime, name: &[u8], buffer: &'a mut [u8]) -> Result<&'a [u8], Told> {
    match fill_from(rt, name, buffer) {
        Ok(count) => Ok(ascii::front(buffer, count)),
        Err(error) => {
            fail(rt, name, error);
            Err(Told)
        }
    }
}
