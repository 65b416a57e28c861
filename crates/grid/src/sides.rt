// The two sides of a market, as far as a square has rows and columns for them.
ghost use Rattle.std.specs.Prelude.{ℕ, ◌≤◌};

// How many growers and how many pilots there are: at most 16 of each.
#[derive(Clone, Copy)]
pub struct Sides {
    pub growers: usize,
    pub pilots: usize,
    ghost few_growers: { growers ≤ 16 },
    ghost few_pilots: { pilots ≤ 16 },
}
