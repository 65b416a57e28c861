// The numbers of a settlement in the order of its file.
ghost use Rattle.std.specs.Prelude.{◌≡◌, ◌+◌, ◌<◌, ◌≤◌, length};
ghost use Rattle.settler.specs.Listing.{Blank, Written, Listed};

// The kind of a file that is a settlement.
const SETTLEMENT: u16 = 2;

// A count of growers or pilots, as a number of the file.
fn count(x: usize) -> u16
    requires { x ≤ 16 }
    ensures { result ≡ x }
{
    // `as`: at most 16, so that no test is left for `try_from`
    x as u16
}

// Three numbers from a place on.
fn write_three(list: &mut [u16; 771], place: usize, x: u16, y: u16, z: u16)
    requires { (length list.old ≡ 771) × (place + 2 < 771) }
    ensures { Written list.old list.new place x y z }
{
    list[place] = x;
    list[place + 1] = y;
    list[place + 2] = z;
}

// Lists kind, growers and pilots, then for every pair its tariff hours, its free-deal hours and the pay per free-deal hour.
pub(crate) fn list_settlement(
    list: &mut [u16; 771],
    growers: usize,
    pilots: usize,
    tariff_hours: &[[u16; 16]; 16],
    free_deal_hours: &[[u16; 16]; 16],
    pay: &[[u16; 16]; 16],
)
    requires { Blank list.old × (growers ≤ 16) × (pilots ≤ 16) }
    ensures { (length list.new ≡ 771) × Listed growers pilots tariff_hours.now
        free_deal_hours.now pay.now list.new }
{
    write_three(&mut *list, 0, SETTLEMENT, count(growers), count(pilots));
    let pairs = growers * pilots;
    // by index: the place of pair k in the list, and its cell in three squares
    for k in 0..pairs {
        let i = k / pilots;
        let j = k % pilots;
        let by_tariff = tariff_hours[i][j];
        let in_free_deal = free_deal_hours[i][j];
        let paid = pay[i][j];
        write_three(&mut *list, 3 + 3 * k, by_tariff, in_free_deal, paid);
    }
}
