// Lists of numbers: a part, an entry, and room for the numbers of a file, all 0.
ghost use Rattle.std.specs.Prelude.{◌≡◌, get_or, length, replicate, take};

// The first `count` numbers of a list, all if there are fewer.
pub fn front<'a>(list: &'a [u16], count: usize) -> &'a [u16]
    ensures { result.now ≡ take count list.now }
{
    &list[..count.min(list.len())]
}

// The number at a place of a list, 0 past its end.
pub fn entry(list: &[u16], place: usize) -> u16
    ensures { result ≡ get_or list.now place 0 }
{
    list.get(place).copied().unwrap_or(0)
}

// As many as the longest ticket has: three, the hours of 16 growers and of 16 pilots, and five for each of 256 pairs.
pub fn ticket_list() -> [u16; 1315]
    ensures { (result ≡ replicate 1315 0) × (length result ≡ 1315) }
{
    [0; 1315]
}

// As many as the longest settlement has: three, and three for each of 256 pairs.
pub fn settlement_list() -> [u16; 771]
    ensures { (result ≡ replicate 771 0) × (length result ≡ 771) }
{
    [0; 771]
}
