// What the ticket says of every pair, from five squares into one.
ghost use Rattle.std.specs.Prelude.{◌≡◌, ℕ, ◌<◌, ◌≤◌, [], get_or, length};
ghost use Rattle.method.specs.Given.{TermsOf};

use grid::Sides;
use offers::Terms;

fn no_terms() -> [Terms; 16]
    ensures { length result ≡ 16 }
{
    let none = Terms {
        tariff_cap: 0,
        tariff_gain: 0,
        tariff_pay: 0,
        free_cap: 0,
        joint_gain: 0,
    };
    [none; 16]
}

fn no_rows() -> [[Terms; 16]; 16]
    ensures { (length result ≡ 16) × ((i : ℕ) → i < 16 → length (get_or result i []) ≡ 16) }
{
    let row = no_terms();
    [row; 16]
}

// The terms of the first growers and pilots. Both indices are needed: the cell (i, j) of six squares at once.
pub(crate) fn terms_square(
    sides: Sides,
    tariff_cap: [[u16; 16]; 16],
    tariff_gain: [[u16; 16]; 16],
    tariff_pay: [[u16; 16]; 16],
    free_cap: [[u16; 16]; 16],
    joint_gain: [[u16; 16]; 16],
) -> [[Terms; 16]; 16]
    ensures { TermsOf tariff_cap tariff_gain tariff_pay free_cap joint_gain sides.growers sides.pilots result }
{
    let mut square = no_rows();
    for i in 0..sides.growers {
        for j in 0..sides.pilots {
            square[i][j] = Terms {
                tariff_cap: tariff_cap[i][j],
                tariff_gain: tariff_gain[i][j],
                tariff_pay: tariff_pay[i][j],
                free_cap: free_cap[i][j],
                joint_gain: joint_gain[i][j],
            };
        }
    }
    square
}
