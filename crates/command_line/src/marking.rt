// Settlements marked, one or several. After an answer that can not be written nothing more is done.
use crate::files_in::{operand_at, read_operand};
use crate::refusals::tell_of_bytes;
use crate::sheet::{print_sheet, unpack_ticket};
use answer_texts::MarkedObject;
use checks::{Document, Refusal};
use commands::{Asked, Status};
use files::{Text, Told, print};
use market::Deal;
use printing::Refused;
use std::fmt;
use std::io::{Result as Written, Write};
use verdicts::Verdict;
use words::{Explained, Finding, Settled};

// What a line begins with: of several files, the file's name.
#[derive(Clone, Copy)]
struct Label<'a> {
    name: Option<&'a [u8]>,
}

impl<'a> Text for Label<'a> {
    fn write<W: Write>(&self, out: &mut W) -> Written<()> {
        if let Some(name) = self.name {
            out.write_all(name)?;
            out.write_all(b": ")?;
        }
        Ok(())
    }
}

// The line of a fault.
#[derive(Clone, Copy)]
struct FaultLine {
    verdict: Verdict,
}

impl fmt::Display for FaultLine {
    fn fmt<W: fmt::Write>(&self, f: &mut fmt::Formatter<W>) -> fmt::Result {
        let verdict = self.verdict;
        let values = verdicts::values_of(verdict);
        let deal = match values.deal {
            Deal::Tariff => "tariff",
            Deal::Free => "free",
        };
        writeln!(
            f,
            "FAULT {} {} {} {deal}: {}",
            values.verdict,
            values.grower,
            values.pilot,
            Finding { verdict }
        )
    }
}

// The line of the verdict.
#[derive(Clone, Copy)]
struct MarkLine<'a> {
    ticket: &'a [u8],
    settlement: &'a [u8],
}

impl<'a> Text for MarkLine<'a> {
    fn write<W: Write>(&self, out: &mut W) -> Written<()> {
        let mut text = [0u8; texts::LINE];
        match texts::mark_line(self.ticket, self.settlement, &mut text) {
            Ok(count) => out.write_all(ascii::front(&text, count)),
            Err(_) => Ok(()),
        }
    }
}

// A line for each fault.
#[derive(Clone, Copy)]
struct FaultLines<'a> {
    label: Label<'a>,
    faults: &'a [Verdict],
}

impl<'a> Text for FaultLines<'a> {
    fn write<W: Write>(&self, out: &mut W) -> Written<()> {
        for &verdict in self.faults {
            self.label.write(out)?;
            FaultLine { verdict }.write(out)?;
        }
        Ok(())
    }
}

// What is said after the line of the verdict: all faults, what the verdict means, or nothing.
#[derive(Clone, Copy)]
enum More<'a> {
    Faults(&'a [Verdict]),
    Meaning(Explained<'a>),
    Nothing,
}

// What is said of a settlement that was read.
#[derive(Clone, Copy)]
struct Marked<'a> {
    label: Label<'a>,
    line: MarkLine<'a>,
    more: More<'a>,
}

impl<'a> Text for Marked<'a> {
    fn write<W: Write>(&self, out: &mut W) -> Written<()> {
        self.label.write(out)?;
        self.line.write(out)?;
        match self.more {
            More::Faults(faults) => {
                let label = self.label;
                FaultLines { label, faults }.write(out)
            }
            More::Meaning(explained) => explained.write(out),
            More::Nothing => Ok(()),
        }
    }
}

// What is said of one that is refused.
#[derive(Clone, Copy)]
struct RefusedLine<'a> {
    label: Label<'a>,
    why: Refusal,
}

impl<'a> Text for RefusedLine<'a> {
    fn write<W: Write>(&self, out: &mut W) -> Written<()> {
        self.label.write(out)?;
        Refused { why: self.why }.write(out)
    }
}

// A ticket that was read, as bytes and as a list, and what is asked.
#[derive(Clone, Copy)]
struct Marking<'a> {
    asked: Asked,
    ticket: &'a [u8],
    terms: &'a [u16],
}

fn label_of<'a>(asked: Asked, name: &'a [u8]) -> Label<'a> {
    let several = 2 < asked.operands;
    Label {
        name: if several { Some(name) } else { None },
    }
}

// Says which settlement is refused.
fn refuse(
    rt: &HostRuntime,
    asked: Asked,
    name: &[u8],
    why: Refusal,
    document: Document,
    settlement: &[u8],
) -> Result<Status, Told> {
    if asked.json {
        let object = MarkedObject {
            name,
            verdict: Verdict::Refused { why },
            faults: None,
        };
        print(rt, &object)?;
    } else {
        let label = label_of(asked, name);
        print(rt, &RefusedLine { label, why })?;
    }
    tell_of_bytes(rt, name, why, document, settlement);
    Ok(Status::Failed)
}

// Says what a settlement is that was read.
fn tell<'x>(
    rt: &HostRuntime,
    asked: Asked,
    name: &'x [u8],
    ticket: &'x [u8],
    settlement: &'x [u8],
    settled: Settled<'x>,
    verdict: Verdict,
    faults: &'x [Verdict],
) -> Result<(), Told> {
    if asked.json {
        let faults = if asked.all { Some(faults) } else { None };
        return print(
            rt,
            &MarkedObject {
                name,
                verdict,
                faults,
            },
        );
    }
    let more = if asked.all {
        More::Faults(faults)
    } else if 2 < asked.operands {
        More::Nothing
    } else {
        More::Meaning(Explained { settled, verdict })
    };
    let marked = Marked {
        label: label_of(asked, name),
        line: MarkLine { ticket, settlement },
        more,
    };
    print(rt, &marked)
}

// The same with every fault.
fn tell_all<'x>(
    rt: &HostRuntime,
    asked: Asked,
    name: &'x [u8],
    ticket: &'x [u8],
    settlement: &'x [u8],
    settled: Settled<'x>,
    verdict: Verdict,
) -> Result<(), Told> {
    let mut list = [verdict; words::MOST_FAULTS];
    let faults = words::faults_of(settled, &mut list);
    tell(
        rt, asked, name, ticket, settlement, settled, verdict, faults,
    )
}

fn judge<'x>(
    rt: &HostRuntime,
    asked: Asked,
    name: &'x [u8],
    ticket: &'x [u8],
    terms: &'x [u16],
    settlement: &'x [u8],
    agreed: &'x [u16],
) -> Result<Status, Told> {
    let settled = Settled {
        ticket: terms,
        settlement: agreed,
    };
    let verdict = marker::mark(ticket, settlement);
    if asked.all {
        tell_all(rt, asked, name, ticket, settlement, settled, verdict)?;
    } else {
        tell(rt, asked, name, ticket, settlement, settled, verdict, &[])?;
    }
    Ok(Status::from(verdict))
}

// Marks the settlement that an operand names. It fails where the answer can not be written.
fn mark_operand(rt: &HostRuntime, marking: Marking, place: usize) -> Result<Status, Told> {
    let asked = marking.asked;
    let word = operand_at(rt, asked, place);
    let name = word.bytes();
    let mut bytes = files::settlement_bytes();
    let Ok(settlement) = files::read(rt, name, &mut bytes) else {
        return Ok(Status::Failed);
    };
    let growers = tables::growers(marking.terms);
    let pilots = tables::pilots(marking.terms);
    let mut agreed = numbers::settlement_list();
    match reader::read_settlement(settlement, growers, pilots, &mut agreed) {
        Ok(count) => judge(
            rt,
            asked,
            name,
            marking.ticket,
            marking.terms,
            settlement,
            numbers::front(&agreed, count),
        ),
        Err(why) => {
            let document = Document::Settlement { growers, pilots };
            refuse(rt, asked, name, why, document, settlement)
        }
    }
}

// Whether a sound settlement of the ticket follows: if it is asked for, and after the words on a single one.
fn shows_model(asked: Asked, status: Status) -> bool {
    asked.model || (asked.operands == 2 && !asked.json && status != Status::Failed)
}

// The settlements are marked only if the ticket is one. By number: an operand is asked for by its place.
pub(crate) fn mark(rt: &HostRuntime, asked: Asked) -> Result<Status, Told> {
    let mut file = files::ticket_bytes();
    let ticket = read_operand(rt, asked, 0, &mut file)?;
    let mut list = numbers::ticket_list();
    let terms = unpack_ticket(rt, asked, ticket, &mut list)?;
    let marking = Marking {
        asked,
        ticket,
        terms,
    };
    let mut status = Status::Done;
    for place in 1..asked.operands {
        status = status.max(mark_operand(rt, marking, place)?);
    }
    if shows_model(asked, status) {
        print_sheet(rt, asked, ticket, terms)?;
    }
    Ok(status)
}
