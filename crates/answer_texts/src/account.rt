// The account of a settlement: a line for each grower and each pilot, and one for all together. Commissions are in euros and cents.
use std::fmt;

// The amounts of an account: what each grower gains, and then what each pilot earns and his commission in cents.
#[derive(Clone, Copy)]
pub struct AccountLines {
    pub amounts: [u32; 48],
    pub growers: usize,
    pub pilots: usize,
}

// Cents as euros.
#[derive(Clone, Copy)]
struct Euros {
    cents: u64,
}

impl fmt::Display for Euros {
    fn fmt<W: fmt::Write>(&self, f: &mut fmt::Formatter<W>) -> fmt::Result {
        write!(f, "{}.{:02}", self.cents / 100, self.cents % 100)
    }
}

// A sum of at most 16 numbers of 32 bits stays far below the largest number.
fn plus(sum: u64, amount: u32) -> u64 {
    sum.saturating_add(u64::from(amount))
}

impl fmt::Display for AccountLines {
    fn fmt<W: fmt::Write>(&self, f: &mut fmt::Formatter<W>) -> fmt::Result {
        let growers = numbers::within(self.growers);
        let pilots = numbers::within(self.pilots);
        let (gains, others) = self.amounts.split_at(growers);
        let mut gained = 0u64;
        for (i, &gain) in gains.iter().enumerate() {
            writeln!(f, "grower {i} gains {gain}")?;
            gained = plus(gained, gain);
        }
        let mut earned = 0u64;
        let mut paid = 0u64;
        for (j, amounts) in others.chunks_exact(2).take(pilots).enumerate() {
            if let &[pay, cents] = amounts {
                let commission = Euros {
                    cents: u64::from(cents),
                };
                writeln!(f, "pilot {j} earns {pay} pays {commission}")?;
                earned = plus(earned, pay);
                paid = plus(paid, cents);
            }
        }
        let commissions = Euros { cents: paid };
        writeln!(f, "all gain {gained} earn {earned} pay {commissions}")
    }
}
