// Blocks of sixteen bytes, and exclusive or at every width.
ghost use Rattle.std.specs.Prelude.{◌≡◌, ◌<◌, bit_xor, slice_index};
ghost use Rattle.octets.specs.Bytes.{◌⊕◌};

use std::array;

pub type Block = [u8; 16];

// Exclusive or, place by place.
pub fn xor<const N: usize>(a: [u8; N], b: [u8; N]) -> [u8; N]
    ensures { result ≡ a.entry ⊕ b.entry }
{
    array::from_fn(
        |i: usize| -> u8
            requires { i < N }
            ensures { result ≡ bit_xor (slice_index a i) (slice_index b i) }
        { a[i] ^ b[i] },
    )
}
