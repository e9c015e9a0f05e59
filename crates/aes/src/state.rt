// The state: four columns of four bytes, which a block fills column by column.
ghost use Rattle.std.specs.Prelude.{◌≡◌};
ghost use Rattle.aes.specs.Steps.{state, block, add_round_key};

use crate::key_schedule::RoundKey;
use octets::block::{Block, xor};

pub(crate) type Column = [u8; 4];

pub(crate) type State = [Column; 4];

#[tactic(auto, unfolding(crate::specs::Steps::state))]
pub(crate) fn from_block(bytes: Block) -> State
    ensures { result ≡ state bytes }
{
    let [a, b, c, d, e, f, g, h, i, j, k, l, m, n, o, p] = bytes;
    [[a, b, c, d], [e, f, g, h], [i, j, k, l], [m, n, o, p]]
}

#[tactic(auto, unfolding(crate::specs::Steps::block))]
pub(crate) fn to_block(s: State) -> Block
    ensures { result ≡ block s }
{
    let [[a, b, c, d], [e, f, g, h], [i, j, k, l], [m, n, o, p]] = s;
    [a, b, c, d, e, f, g, h, i, j, k, l, m, n, o, p]
}

#[tactic(auto, unfolding(crate::specs::Steps::add_round_key))]
pub(crate) fn add_round_key(s: State, key: &RoundKey) -> State
    ensures { result ≡ add_round_key s key.now.columns }
{
    // by patterns: the proof over an `array::from_fn` that captures both states did not close
    let [a, b, c, d] = s;
    let [k, l, m, n] = key.columns;
    [xor(a, k), xor(b, l), xor(c, m), xor(d, n)]
}
