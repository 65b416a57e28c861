// A ticket from a seed.
use crate::files_in::{operand_at, write_operand};
use crate::refusals::refuse;
use checks::Refusal;
use commands::{Asked, Status};
use files::{Text, Told, message};
use std::io;
use std::io::Write;

// Which word is no number.
#[derive(Clone, Copy)]
struct NoNumber<'a> {
    word: &'a [u8],
}

impl<'a> Text for NoNumber<'a> {
    fn write<W: Write>(&self, out: &mut W) -> io::Result<()> {
        out.write_all(b"`")?;
        out.write_all(self.word)?;
        out.write_all(b"` is no number up to 65535; see exchange draw --help")
    }
}

// The number that an operand gives, if it is one.
fn number_of(rt: &HostRuntime, asked: Asked, place: usize) -> Result<u16, Told> {
    let operand = operand_at(rt, asked, place);
    let word = operand.bytes();
    let mut list = [0u16; 1];
    if let Ok(1) = lists::read_numbers(word, &mut list) {
        return Ok(list[0]);
    }
    message(rt, &NoNumber { word });
    Err(Told)
}

// The drawn ticket as bytes.
fn drawn(seed: u16, growers: u16, pilots: u16, ticket: &mut [u8]) -> Result<usize, Refusal> {
    let mut list = numbers::ticket_list();
    let count = draws::draw(
        u64::from(seed),
        usize::from(growers),
        usize::from(pilots),
        &mut list,
    )?;
    reader::pack(numbers::front(&list, count), ticket)
}

pub(crate) fn draw(rt: &HostRuntime, asked: Asked) -> Result<Status, Told> {
    let seed = number_of(rt, asked, 0)?;
    let growers = number_of(rt, asked, 1)?;
    let pilots = number_of(rt, asked, 2)?;
    let mut ticket = files::ticket_bytes();
    match drawn(seed, growers, pilots, &mut ticket) {
        Ok(count) => {
            write_operand(rt, asked, 3, ascii::front(&ticket, count))?;
            Ok(Status::Done)
        }
        Err(why) => Err(refuse(rt, b"draw", why)),
    }
}
