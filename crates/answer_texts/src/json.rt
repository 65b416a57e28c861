// Answers as JSON, an object a line.
use checks::Refusal;
use files::Text;
use market::Deal;
use numbers::{entry, front};
use std::fmt;
use std::io::{Result, Write};
use tables::{Quantity, Side};
use verdicts::Verdict;
use words::{Finding, Reason};

// A string. Quotes, backslashes and controls are escaped; all other bytes stand as they are.
#[derive(Clone, Copy)]
struct Quoted<'a> {
    bytes: &'a [u8],
}

impl<'a> Text for Quoted<'a> {
    fn write<W: Write>(&self, out: &mut W) -> Result<()> {
        out.write_all(b"\"")?;
        for &byte in self.bytes {
            match byte {
                b'"' | b'\\' => out.write_all(&[b'\\', byte])?,
                0..=31 => write!(out, "\\u{byte:04x}")?,
                _ => out.write_all(&[byte])?,
            }
        }
        out.write_all(b"\"")
    }
}

// A refusal, at the end of an object.
#[derive(Clone, Copy)]
struct RefusalEnd {
    why: Refusal,
}

impl fmt::Display for RefusalEnd {
    fn fmt<W: fmt::Write>(&self, f: &mut fmt::Formatter<W>) -> fmt::Result {
        let why = self.why;
        let number = u8::from(why);
        let reason = Reason { why };
        writeln!(f, "\"refusal\":{number},\"text\":\"{reason}\"}}")
    }
}

#[derive(Clone, Copy)]
pub struct RefusalObject {
    pub why: Refusal,
}

impl fmt::Display for RefusalObject {
    fn fmt<W: fmt::Write>(&self, f: &mut fmt::Formatter<W>) -> fmt::Result {
        write!(f, "{{{}", RefusalEnd { why: self.why })
    }
}

fn word_of(deal: Deal) -> &'static str {
    match deal {
        Deal::Tariff => "tariff",
        Deal::Free => "free",
    }
}

// A verdict's number and whom it names.
#[derive(Clone, Copy)]
struct Named {
    verdict: Verdict,
}

impl fmt::Display for Named {
    fn fmt<W: fmt::Write>(&self, f: &mut fmt::Formatter<W>) -> fmt::Result {
        let values = verdicts::values_of(self.verdict);
        write!(
            f,
            "\"verdict\":{},\"grower\":{},\"pilot\":{},\"deal\":\"{}\"",
            values.verdict,
            values.grower,
            values.pilot,
            word_of(values.deal)
        )
    }
}

// All faults, an object each.
#[derive(Clone, Copy)]
struct Faults<'a> {
    faults: &'a [Verdict],
}

impl<'a> fmt::Display for Faults<'a> {
    fn fmt<W: fmt::Write>(&self, f: &mut fmt::Formatter<W>) -> fmt::Result {
        f.write_str(",\"faults\":[")?;
        let mut comma = "";
        for &verdict in self.faults {
            let named = Named { verdict };
            let finding = Finding { verdict };
            write!(f, "{comma}{{{named},\"text\":\"{finding}\"}}")?;
            comma = ",";
        }
        f.write_str("]")
    }
}

// The verdict on a settlement, without the end of its object.
#[derive(Clone, Copy)]
struct Judged {
    verdict: Verdict,
}

impl fmt::Display for Judged {
    fn fmt<W: fmt::Write>(&self, f: &mut fmt::Formatter<W>) -> fmt::Result {
        let verdict = self.verdict;
        let values = verdicts::values_of(verdict);
        let named = Named { verdict };
        let finding = Finding { verdict };
        write!(
            f,
            "\"refusal\":0,{named},\"count\":{},\"worth\":{},\"text\":\"{finding}\"",
            values.count, values.worth
        )
    }
}

// What is said of a settlement, with all faults if they are asked for.
#[derive(Clone, Copy)]
pub struct MarkedObject<'a> {
    pub name: &'a [u8],
    pub verdict: Verdict,
    pub faults: Option<&'a [Verdict]>,
}

impl<'a> Text for MarkedObject<'a> {
    fn write<W: Write>(&self, out: &mut W) -> Result<()> {
        out.write_all(b"{\"settlement\":")?;
        Quoted { bytes: self.name }.write(out)?;
        out.write_all(b",")?;
        if let Verdict::Refused { why } = self.verdict {
            return RefusalEnd { why }.write(out);
        }
        Judged {
            verdict: self.verdict,
        }
        .write(out)?;
        if let Some(faults) = self.faults {
            Faults { faults }.write(out)?;
        }
        out.write_all(b"}\n")
    }
}

// A document's numbers, by what they are. Pairs go by the numbers of the two, which are printed.
#[derive(Clone, Copy)]
pub struct DocumentObject<'a> {
    pub list: &'a [u16],
}

impl<'a> DocumentObject<'a> {
    fn is_ticket(&self) -> bool {
        entry(self.list, 0) == 1
    }

    // A number of a pair.
    fn number(&self, quantity: Quantity, i: u16, j: u16) -> u16 {
        entry(self.list, tables::place(self.list, quantity, i, j))
    }
}

// The hours that those of a side have.
#[derive(Clone, Copy)]
struct Hours<'a> {
    hours: &'a [u16],
}

impl<'a> fmt::Display for Hours<'a> {
    fn fmt<W: fmt::Write>(&self, f: &mut fmt::Formatter<W>) -> fmt::Result {
        let mut comma = "";
        for hours in self.hours {
            write!(f, "{comma}{hours}")?;
            comma = ",";
        }
        Ok(())
    }
}

// A pair of a document, after its grower and its pilot.
#[derive(Clone, Copy)]
struct Pair<'a> {
    document: DocumentObject<'a>,
    i: u16,
    j: u16,
}

impl<'a> fmt::Display for Pair<'a> {
    fn fmt<W: fmt::Write>(&self, f: &mut fmt::Formatter<W>) -> fmt::Result {
        let of = |quantity| self.document.number(quantity, self.i, self.j);
        if self.document.is_ticket() {
            return write!(
                f,
                "\"tariff_cap\":{},\"tariff_gain\":{},\"tariff_pay\":{},\"free_cap\":{},\"joint_gain\":{}",
                of(Quantity::TariffCap),
                of(Quantity::TariffGain),
                of(Quantity::TariffPay),
                of(Quantity::FreeCap),
                of(Quantity::JointGain)
            );
        }
        write!(
            f,
            "\"tariff_hours\":{},\"free_deal_hours\":{},\"pay\":{}",
            of(Quantity::TariffHours),
            of(Quantity::FreeDealHours),
            of(Quantity::Pay)
        )
    }
}

impl<'a> fmt::Display for DocumentObject<'a> {
    fn fmt<W: fmt::Write>(&self, f: &mut fmt::Formatter<W>) -> fmt::Result {
        let document = *self;
        let list = self.list;
        let kind = entry(list, 0);
        let growers = entry(list, 1);
        let pilots = entry(list, 2);
        write!(
            f,
            "{{\"kind\":{kind},\"growers\":{growers},\"pilots\":{pilots}"
        )?;
        if self.is_ticket() {
            let of_growers = tables::hours(list, Side::Growers);
            let of_pilots = tables::hours(list, Side::Pilots);
            write!(
                f,
                ",\"grower_hours\":[{}],\"pilot_hours\":[{}]",
                Hours {
                    hours: front(&of_growers, usize::from(growers)),
                },
                Hours {
                    hours: front(&of_pilots, usize::from(pilots)),
                }
            )?;
        }
        f.write_str(",\"pairs\":[")?;
        let mut comma = "";
        for i in 0..growers {
            for j in 0..pilots {
                let pair = Pair { document, i, j };
                write!(f, "{comma}{{\"grower\":{i},\"pilot\":{j},{pair}}}")?;
                comma = ",";
            }
        }
        f.write_str("]}\n")
    }
}
