// Rows and squares of numbers: the functions that several crates need. Each answers on every input.
#![tactic(auto)]

ghost use Rattle.std.specs.Prelude.{◌≡◌, ℕ, ◌-◌, min, get_or};
ghost use Rattle.grid.specs.Grid.{at, Square, Row};
ghost use Rattle.grid.specs.Fill.{Filled};

mod sides;

pub use sides::Sides;

// One cell, 0 outside the square.
pub fn cell(sq: [[u16; 16]; 16], i: usize, j: usize) -> u16
    ensures { result ≡ at sq i j }
{
    if i < numbers::SIDE {
        if j < numbers::SIDE {
            return sq[i][j];
        }
    }
    0
}

// A square and a row of zeros: called, and not written out, since a proof carries `[[0; 16]; 16]` as 256 terms.
pub fn zeros() -> [[u16; 16]; 16]
    ensures { Square result × ((i j : ℕ) → at result i j ≡ 0) }
{
    [[0u16; 16]; 16]
}

pub fn zero_row() -> [u16; 16]
    ensures { Row result × ((j : ℕ) → get_or result j 0 ≡ 0) }
{
    [0u16; 16]
}

// A copy of a lent square. Whoever lends a square on knows by it that there are 16 rows of 16 numbers, which a reference does not tell.
pub fn copied(sq: &[[u16; 16]; 16]) -> [[u16; 16]; 16]
    ensures { result ≡ sq.now }
{
    *sq
}

// So many rows and columns of a square on their side: its cell (i, j) becomes the cell (j, i).
pub fn turned(sq: [[u16; 16]; 16], rows: usize, columns: usize) -> [[u16; 16]; 16]
    ensures { Filled (λ j i. at sq i j) (min 16 columns) (min 16 rows) result }
{
    let height = numbers::within(columns);
    let width = numbers::within(rows);
    let mut q = zeros();
    // Both indices are needed: the cell (i, j) of one square is the cell (j, i) of the other.
    for j in 0..height {
        for i in 0..width {
            q[j][i] = sq[i][j];
        }
    }
    q
}

// The differences of two squares, as far as so many rows and columns reach; 0 where the second is greater.
pub fn differences(
    one: [[u16; 16]; 16],
    other: [[u16; 16]; 16],
    rows: usize,
    columns: usize,
) -> [[u16; 16]; 16]
    ensures { Filled (λ i j. at one i j - at other i j) (min 16 rows) (min 16 columns) result }
{
    let height = numbers::within(rows);
    let width = numbers::within(columns);
    let mut q = zeros();
    // Both indices are needed: each cell is made of the same cell of two squares.
    for i in 0..height {
        for j in 0..width {
            q[i][j] = one[i][j].saturating_sub(other[i][j]);
        }
    }
    q
}
