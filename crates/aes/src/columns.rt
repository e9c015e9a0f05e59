// The columns of the state are mixed: each byte becomes a sum of products of the four.
ghost use Rattle.std.specs.Prelude.{◌≡◌};
ghost use Rattle.aes.specs.Polynomials.{◌·◌};
ghost use Rattle.aes.specs.Steps.{mixed, mix_columns, inv_mix_columns};

use crate::state::{Column, State};

#[tactic(auto, using(crate::specs::Computed::doubled))]
fn double(b: u8) -> u8
    ensures { result ≡ 2 · b }
{
    (b << 1) ^ ((b >> 7) * 0x1b)
}

#[tactic(auto, using(crate::specs::Computed::tripled))]
fn triple(b: u8) -> u8
    ensures { result ≡ 3 · b }
{
    double(b) ^ b
}

fn mix_column(w: Column) -> Column
    ensures { result ≡ mixed 2 3 1 1 w }
{
    // a line for each row of the matrix, as the standard prints them
    let [a, b, c, d] = w;
    [
        double(a) ^ triple(b) ^ c ^ d,
        double(b) ^ triple(c) ^ d ^ a,
        double(c) ^ triple(d) ^ a ^ b,
        double(d) ^ triple(a) ^ b ^ c,
    ]
}

pub(crate) fn mix_columns(s: State) -> State
    ensures { result ≡ mix_columns s }
{
    s.map(mix_column)
}

// The inverse matrix is the matrix times one with the coefficients 5, 0, 4, 0, so that doubling is all that is needed.
fn inv_mix_column(w: Column) -> Column
    ensures { result ≡ mixed 0x0E 0x0B 0x0D 0x09 w }
{
    let [a, b, c, d] = w;
    let even = double(double(a ^ c));
    let odd = double(double(b ^ d));
    mix_column([a ^ even, b ^ odd, c ^ even, d ^ odd])
}

pub(crate) fn inv_mix_columns(s: State) -> State
    ensures { result ≡ inv_mix_columns s }
{
    s.map(inv_mix_column)
}
