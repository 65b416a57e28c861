// What a verdict or a refusal means, in words.
use crate::settlements::Settled;
use crate::spares::{Spare, cheapest};
use checks::Refusal;
use market::Deal;
use std::fmt;
use tables::{Quantity, Side};
use texts::Meaning;
use verdicts::Verdict;

// The words of the library, which are ASCII.
fn write_meaning<W: fmt::Write>(
    f: &mut fmt::Formatter<W>,
    what: Meaning,
    number: u8,
) -> fmt::Result {
    let mut text = [0u8; texts::TEXT];
    match texts::telling(what, number, &mut text) {
        Ok(count) => f.write_str(std::str::from_utf8(ascii::front(&text, count)).unwrap_or("")),
        Err(_) => Ok(()),
    }
}

// Whether it is the ticket that is refused, of a ticket and a settlement: 11 to 17 are those of the settlement. By number, as in docs/FORMAT.md.
pub fn is_of_ticket(why: impl Into<u8>) -> bool {
    let number: u8 = why.into();
    number < 11 || number == 18
}

// What is refused, and why.
#[derive(Clone, Copy)]
pub struct Reason {
    pub why: Refusal,
}

impl fmt::Display for Reason {
    fn fmt<W: fmt::Write>(&self, f: &mut fmt::Formatter<W>) -> fmt::Result {
        write_meaning(f, Meaning::Refusal, u8::from(self.why))
    }
}

fn name_of(deal: Deal) -> &'static str {
    match deal {
        Deal::Tariff => "tariff deal",
        Deal::Free => "free deal",
    }
}

// A verdict, after whom it names: nobody, a grower, a pilot, or a pair and its deal.
#[derive(Clone, Copy)]
pub struct Finding {
    pub verdict: Verdict,
}

impl fmt::Display for Finding {
    fn fmt<W: fmt::Write>(&self, f: &mut fmt::Formatter<W>) -> fmt::Result {
        let values = verdicts::values_of(self.verdict);
        let deal = name_of(values.deal);
        match self.verdict {
            Verdict::Refused { .. } | Verdict::Sound { .. } => {}
            Verdict::GrowerOverHours { grower } => write!(f, "grower {grower}: ")?,
            Verdict::PilotOverHours { pilot } => write!(f, "pilot {pilot}: ")?,
            _ => write!(
                f,
                "grower {}, pilot {}, {deal}: ",
                values.grower, values.pilot
            )?,
        }
        write_meaning(f, Meaning::Verdict, values.verdict)
    }
}

// What somebody would give up for an hour more of a deal.
#[derive(Clone, Copy)]
struct GivenUp {
    spare: Option<Spare>,
    side: Side,
}

fn partner_of(side: Side) -> &'static str {
    match side {
        Side::Growers => "pilot",
        Side::Pilots => "grower",
    }
}

impl fmt::Display for GivenUp {
    fn fmt<W: fmt::Write>(&self, f: &mut fmt::Formatter<W>) -> fmt::Result {
        match self.spare {
            None => f.write_str("has no spare"),
            Some(Spare::FreeHour) => f.write_str("gives up a free hour, worth 0"),
            Some(
                Spare::Hour {
                    partner,
                    deal,
                    worth,
                },
            ) => write!(
                f,
                "gives up an hour with {} {partner}, {}, worth {worth}",
                partner_of(self.side),
                name_of(deal)
            ),
        }
    }
}

// What an hour more of a deal earns two parties, and the hours that they would give up for it.
#[derive(Clone, Copy)]
struct Gains<'a> {
    settled: Settled<'a>,
    grower: usize,
    pilot: usize,
    deal: Deal,
}

impl<'a> Gains<'a> {
    fn earned(&self, quantity: Quantity) -> u16 {
        grid::cell(
            tables::square(self.settled.ticket, quantity),
            self.grower,
            self.pilot,
        )
    }

    fn given_up(&self, side: Side) -> GivenUp {
        GivenUp {
            spare: cheapest(self.settled, side, self.grower, self.pilot, self.deal),
            side,
        }
    }
}

impl<'a> fmt::Display for Gains<'a> {
    fn fmt<W: fmt::Write>(&self, f: &mut fmt::Formatter<W>) -> fmt::Result {
        match self.deal {
            Deal::Tariff => writeln!(
                f,
                "an hour more earns them {} and {}",
                self.earned(Quantity::TariffGain),
                self.earned(Quantity::TariffPay)
            )?,
            Deal::Free => writeln!(
                f,
                "an hour more earns them {} together",
                self.earned(Quantity::JointGain)
            )?,
        }
        writeln!(f, "grower {} {}", self.grower, self.given_up(Side::Growers))?;
        writeln!(f, "pilot {} {}", self.pilot, self.given_up(Side::Pilots))
    }
}

// The verdict on a settlement of a ticket: what it is, and why. Where the ticket has a tariff deal no worth is promised.
#[derive(Clone, Copy)]
pub struct Explained<'a> {
    pub settled: Settled<'a>,
    pub verdict: Verdict,
}

fn has_tariff_deal(ticket: &[u16]) -> bool {
    let caps = tables::square(ticket, Quantity::TariffCap);
    totals::has_tariff_deal(tables::growers(ticket), tables::pilots(ticket), caps)
}

impl<'a> fmt::Display for Explained<'a> {
    fn fmt<W: fmt::Write>(&self, f: &mut fmt::Formatter<W>) -> fmt::Result {
        let settled = self.settled;
        let verdict = self.verdict;
        writeln!(f, "{}", Finding { verdict })?;
        match verdict {
            Verdict::Sound { worth, .. } if !has_tariff_deal(settled.ticket) => {
                writeln!(
                    f,
                    "worth {worth}: no settlement of this ticket is worth more"
                )
            }
            Verdict::Idle {
                grower,
                pilot,
                deal,
                ..
            }
            | Verdict::Blocks {
                grower,
                pilot,
                deal,
                ..
            } => {
                let gains = Gains {
                    settled,
                    grower,
                    pilot,
                    deal,
                };
                write!(f, "{gains}")
            }
            _ => Ok(()),
        }
    }
}
