// The five numbers of a pair in a ticket's list.
ghost use Rattle.std.specs.Prelude.{◌≡◌};
ghost use Rattle.tables.specs.View.{quantity_of};
ghost use Rattle.windows.specs.Narrowed.{terms_of};

use numbers::entry;
use tables::{Quantity, place};
use ticket_calls::Terms;

fn number_of(list: &[u16], quantity: Quantity, i: u16, j: u16) -> u16
    ensures { result ≡ quantity_of quantity list.now i j }
{
    entry(list, place(list, quantity, i, j))
}

pub(crate) fn terms_of(list: &[u16], i: u16, j: u16) -> Terms
    ensures { result ≡ terms_of list.now i j }
{
    Terms {
        tariff_cap: number_of(list, Quantity::TariffCap, i, j),
        tariff_gain: number_of(list, Quantity::TariffGain, i, j),
        tariff_pay: number_of(list, Quantity::TariffPay, i, j),
        free_cap: number_of(list, Quantity::FreeCap, i, j),
        joint_gain: number_of(list, Quantity::JointGain, i, j),
    }
}
