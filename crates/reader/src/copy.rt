// A document's bytes copied into a list, and a list into bytes: a scan first, then the room, then what can no longer fail.
ghost use Rattle.std.specs.Prelude.{◌≡◌, ◌+◌, ◌≤◌, length};
ghost use Rattle.std.proofs.lemmas.List.Edits.{sets};
ghost use Rattle.groups.specs.Groups.{encode, bytes, pack};
ghost use Rattle.documents.specs.Walk.{read_head, form};
ghost use Rattle.documents.specs.Layout.{form_of};
ghost use Rattle.scanning.specs.Runs.{scanned};
ghost use Rattle.reader.specs.Steps.{most_bytes, first_numbers, Fillable};
ghost use Rattle.reader.specs.Answer.{packed_as, Tells, kept};

use checks::{Document, Refusal};
use decoding::decode;
use groups::{Got, number, size};
use numbers::front;
use passing::passes;
use scanning::scan;

// Room for the numbers of as many bytes as the longest ticket has. A longer file is read number by number.
fn room() -> [u16; 2083] {
    [0; 2083]
}

// Writes the first numbers of bytes that were scanned to the front of a list.
fn fill(s: &[u8], list: &mut [u16], count: usize)
    requires fillable { Fillable s.now count }
    requires count_in_bounds { count ≤ length list.old }
    ensures { list.new ≡ sets list.old 0 (first_numbers count s.now) }
{
    let mut here: usize = 0;
    // k counts numbers, `here` bytes. The casts below lose nothing: what was scanned fits.
    for k in 0..count {
        let got = number(s, here);
        let Got::Number { value, next } = got else {
            return;
        };
        list[k] = value as u16;
        here = next;
    }
}

// The bytes that a list takes.
fn size_all(list: &[u16]) -> usize
    requires { length (pack list.now) ≤ most_bytes }
    ensures { result ≡ length (pack list.now) }
{
    let mut total: usize = 0;
    for &x in list {
        total = total + size(x);
    }
    total
}

// Writes a number at a place and returns the place after it.
fn write(x: usize, out: &mut [u8], at: usize) -> usize
    requires { at + length (encode x) ≤ length out.old }
    ensures { (out.new ≡ sets out.old at (encode x)) × (result ≡ at + length (encode x)) }
{
    let mut left = x;
    let mut here = at;
    while 128 <= left {
        out[here] = (128 + left % 128) as u8;
        left = left / 128;
        here = here + 1;
    }
    out[here] = left as u8;
    here + 1
}

// Writes a list's bytes to the front of a buffer.
fn write_all(list: &[u16], out: &mut [u8])
    requires { length (pack list.now) ≤ length out.old }
    ensures { out.new ≡ sets out.old 0 (pack list.now) }
{
    let mut here: usize = 0;
    for &x in list {
        here = write(usize::from(x), out, here);
    }
}

// A document's bytes into a lent list, number by number.
fn receive_each(document: Document, s: &[u8], list: &mut [u16]) -> Result<usize, Refusal>
    ensures tells { Tells result (length list.old) (form (form_of document) bytes s.now) }
    ensures list_after { list.new ≡ kept list.old (form (form_of document) bytes s.now) }
{
    let count = scan(document, s)?;
    if list.len() < count {
        return Err(Refusal::NoRoom);
    }
    fill(s, list, count);
    Ok(count)
}

// Writes numbers to the front of a list.
fn copy_front(numbers: &[u16], list: &mut [u16])
    requires { length numbers.now ≤ length list.old }
    ensures { list.new ≡ sets list.old 0 numbers.now }
{
    list[..numbers.len()].copy_from_slice(numbers);
}

// A document's bytes into a lent list: decoded into room of our own, where what is decoded passes the quick test, else number by number.
pub(crate) fn receive(document: Document, s: &[u8], list: &mut [u16]) -> Result<usize, Refusal>
    ensures tells { Tells result (length list.old) (form (form_of document) bytes s.now) }
    ensures list_after { list.new ≡ kept list.old (form (form_of document) bytes s.now) }
{
    let mut own = room();
    let count = decode(s, &mut own);
    if !passes(document, front(&own, count)) {
        return receive_each(document, s, list);
    }
    if count <= list.len() {
        copy_front(front(&own, count), list);
        return Ok(count);
    }
    Err(Refusal::NoRoom)
}

// What a scan of a list answers, at once where the list passes the quick test.
fn scan_list(document: Document, list: &[u16]) -> Result<usize, Refusal>
    ensures { result ≡ scanned (form (form_of document) read_head list.now) }
{
    if passes(document, list) {
        return Ok(list.len());
    }
    scan(document, list)
}

// A document's list into a lent buffer.
pub(crate) fn deliver(document: Document, list: &[u16], out: &mut [u8]) -> Result<usize, Refusal>
    ensures tells { Tells result (length out.old) (packed_as (form (form_of document) read_head list.now)) }
    ensures out_after { out.new ≡ kept out.old (packed_as (form (form_of document) read_head list.now)) }
{
    scan_list(document, list)?;
    let written = size_all(list);
    if out.len() < written {
        return Err(Refusal::NoRoom);
    }
    write_all(list, out);
    Ok(written)
}
