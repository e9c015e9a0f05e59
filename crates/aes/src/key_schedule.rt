// The key expanded to the keys of the rounds.
ghost use Rattle.std.specs.Prelude.{◌≡◌, [], ◌∷◌, map};
ghost use Rattle.octets.specs.Bytes.{◌⊕◌};
ghost use Rattle.aes.specs.Cipher.{round_keys};
ghost use Rattle.aes.specs.Expansion.{rot_word, following};
ghost use Rattle.aes.specs.Steps.{sub_word};

use crate::s_box::sub_word;
use crate::state::{Column, State, from_block};
use octets::block::{Block, xor};

// One for the start, and one for each of ten rounds.
pub(crate) const ROUND_KEYS: usize = 11;

// The powers of x, from the zeroth on.
const POWERS: [u8; 10] = [0x01, 0x02, 0x04, 0x08, 0x10, 0x20, 0x40, 0x80, 0x1b, 0x36];

// What a round adds to the state.
#[derive(Clone, Copy)]
pub(crate) struct RoundKey {
    pub columns: State,
}

// What a word becomes on its way into the first word of a round. A word is laid out as a column of the state.
fn constant_step(w: Column, constant: u8) -> Column
    ensures { result ≡ sub_word (rot_word w) ⊕ (constant ∷ 0 ∷ 0 ∷ 0 ∷ []) }
{
    let [a, b, c, d] = w;
    xor(sub_word([b, c, d, a]), [constant, 0, 0, 0])
}

// The key of the round after, word by word: the word in its place before, and the one just made.
fn next_round_key(key: RoundKey, constant: u8) -> RoundKey
    ensures { result.columns ≡ following key.columns constant }
{
    let [a, b, c, d] = key.columns;
    let a = xor(a, constant_step(d, constant));
    let b = xor(b, a);
    let c = xor(c, b);
    RoundKey {
        columns: [a, b, c, xor(d, c)],
    }
}

pub(crate) fn expand(key: &Block) -> [RoundKey; ROUND_KEYS]
    ensures { map (λ k. k.columns) result ≡ round_keys key.now }
{
    let first = RoundKey {
        columns: from_block(*key),
    };
    let mut keys = [first; ROUND_KEYS];
    // by places, since a key is made of the one before it in the array that is written
    for (i, constant) in POWERS.iter().enumerate() {
        keys[i + 1] = next_round_key(keys[i], *constant);
    }
    keys
}
