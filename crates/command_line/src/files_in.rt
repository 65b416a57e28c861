// The files that a command reads and writes, by its operands.
use commands::{Asked, operand};
use files::Told;

// An argument, as bytes.
#[derive(Clone, Copy)]
pub(crate) struct Word {
    bytes: [u8; 4096],
    length: usize,
}

impl Word {
    pub(crate) fn bytes(&self) -> &[u8] {
        ascii::front(&self.bytes, self.length)
    }
}

pub(crate) fn word_at(rt: &HostRuntime, argument: usize) -> Word {
    let mut bytes = [0u8; 4096];
    let length = commands::argument(rt, argument, &mut bytes);
    Word { bytes, length }
}

// An operand. Operands count from 0.
pub(crate) fn operand_at(rt: &HostRuntime, asked: Asked, place: usize) -> Word {
    let mut bytes = [0u8; 4096];
    let length = operand(rt, asked, place, &mut bytes);
    Word { bytes, length }
}

// What the file holds that an operand names, as far as the buffer goes.
pub(crate) fn read_operand<'a>(
    rt: &HostRuntime,
    asked: Asked,
    place: usize,
    buffer: &'a mut [u8],
) -> Result<&'a [u8], Told> {
    let name = operand_at(rt, asked, place);
    files::read(rt, name.bytes(), buffer)
}

// Writes the file that an operand names.
pub(crate) fn write_operand(
    rt: &HostRuntime,
    asked: Asked,
    place: usize,
    file: &[u8],
) -> Result<(), Told> {
    let name = operand_at(rt, asked, place);
    files::write(rt, name.bytes(), file)
}

// A byte of a file, 0 past its end.
pub(crate) fn byte_at(file: &[u8], place: usize) -> u8 {
    file.get(place).copied().unwrap_or(0)
}
