// The sheet as an object, and what a pair that flies has.
use std::fmt;
use tables::{Quantity, Side};
use words::Settled;

// What a pair agreed that has any hours. The grower keeps nothing of a joint gain without free-deal hours.
#[derive(Clone, Copy)]
pub(crate) struct Flight {
    pub(crate) tariff_hours: u16,
    pub(crate) tariff_gain: u16,
    pub(crate) tariff_pay: u16,
    pub(crate) free_deal_hours: u16,
    pub(crate) grower_share: u16,
    pub(crate) pilot_share: u16,
}

pub(crate) fn flight_of(settled: Settled, i: u16, j: u16) -> Option<Flight> {
    let tariff_hours = settled.agreed(Quantity::TariffHours, i, j);
    let free_deal_hours = settled.agreed(Quantity::FreeDealHours, i, j);
    if tariff_hours == 0 && free_deal_hours == 0 {
        return None;
    }
    let pilot_share = settled.agreed(Quantity::Pay, i, j);
    let kept = settled
        .term(Quantity::JointGain, i, j)
        .saturating_sub(pilot_share);
    Some(Flight {
        tariff_hours,
        tariff_gain: settled.term(Quantity::TariffGain, i, j),
        tariff_pay: settled.term(Quantity::TariffPay, i, j),
        free_deal_hours,
        grower_share: if free_deal_hours == 0 { 0 } else { kept },
        pilot_share,
    })
}

impl fmt::Display for Flight {
    fn fmt<W: fmt::Write>(&self, f: &mut fmt::Formatter<W>) -> fmt::Result {
        write!(
            f,
            "\"tariff_hours\":{},\"tariff_gain\":{},\"tariff_pay\":{},\"free_deal_hours\":{},\"grower_share\":{},\"pilot_share\":{}",
            self.tariff_hours,
            self.tariff_gain,
            self.tariff_pay,
            self.free_deal_hours,
            self.grower_share,
            self.pilot_share
        )
    }
}

// The sheet of a settled ticket as an object, with the count of the marker. By the numbers of the two: they are printed.
#[derive(Clone, Copy)]
pub struct SheetObject<'a> {
    pub settled: Settled<'a>,
    pub count: usize,
}

impl<'a> fmt::Display for SheetObject<'a> {
    fn fmt<W: fmt::Write>(&self, f: &mut fmt::Formatter<W>) -> fmt::Result {
        let growers = self.settled.parties(Side::Growers);
        let pilots = self.settled.parties(Side::Pilots);
        write!(f, "{{\"growers\":{growers},\"pilots\":{pilots},\"pairs\":[")?;
        let mut comma = "";
        for i in 0..growers {
            for j in 0..pilots {
                if let Some(flight) = flight_of(self.settled, i, j) {
                    write!(f, "{comma}{{\"grower\":{i},\"pilot\":{j},{flight}}}")?;
                    comma = ",";
                }
            }
        }
        writeln!(f, "],\"count\":{}}}", self.count)
    }
}
