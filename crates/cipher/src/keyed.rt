// A cipher made for one key, with the laws that hold under it.
ghost use Rattle.std.specs.Prelude.{◌≡◌};
ghost use Rattle.cipher.specs.Keyed.{Keyed as LawfulUnder};

use crate::block_cipher::BlockCipher;
use octets::block::Block;

pub fn keyed<C: BlockCipher>(key: &Block) -> C
    ensures kept { C.held result ≡ key.now }
    ensures lawful { LawfulUnder C.enc C.dec key.now }
{
    C::new(key)
}
