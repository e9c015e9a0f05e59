// The rows of the state turn: row r by r places.
ghost use Rattle.std.specs.Prelude.{◌≡◌, [], ◌∷◌, slice_index};
ghost use Rattle.aes.specs.Steps.{shift_rows, inv_shift_rows};

use crate::state::{Column, State};

// A column of a turned state has a byte of each column.
fn diagonal(a: Column, b: Column, c: Column, d: Column) -> Column
    ensures { result ≡ slice_index a 0 ∷ slice_index b 1 ∷ slice_index c 2 ∷ slice_index d 3 ∷ [] }
{
    [a[0], b[1], c[2], d[3]]
}

#[tactic(auto, unfolding(crate::specs::Steps::shift_rows))]
pub(crate) fn shift_rows(s: State) -> State
    ensures { result ≡ shift_rows s }
{
    let [a, b, c, d] = s;
    [
        diagonal(a, b, c, d),
        diagonal(b, c, d, a),
        diagonal(c, d, a, b),
        diagonal(d, a, b, c),
    ]
}

#[tactic(auto, unfolding(crate::specs::Steps::inv_shift_rows))]
pub(crate) fn inv_shift_rows(s: State) -> State
    ensures { result ≡ inv_shift_rows s }
{
    let [a, b, c, d] = s;
    [
        diagonal(a, d, c, b),
        diagonal(b, a, d, c),
        diagonal(c, b, a, d),
        diagonal(d, c, b, a),
    ]
}
