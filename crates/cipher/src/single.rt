// One block under one key, as user permits and encrypted keys have it. The two directions stay two functions of a line
// each: a type that says the direction would be longer than both.
ghost use Rattle.std.specs.Prelude.{◌≡◌};
ghost use Rattle.octets.specs.Bytes.{Bytes};

use crate::block_cipher::BlockCipher;
use octets::block::Block;

pub fn encipher<C: BlockCipher + Drop>(key: &Block, block: &Block) -> Block
    ensures value { result ≡ C.enc key.now block.now }
    ensures sixteen { Bytes 16 result }
    ensures undone { C.dec key.now result ≡ block.now }
{
    C::new(key).encipher(*block)
}

pub fn decipher<C: BlockCipher + Drop>(key: &Block, block: &Block) -> Block
    ensures value { result ≡ C.dec key.now block.now }
    ensures sixteen { Bytes 16 result }
    ensures undone { C.enc key.now result ≡ block.now }
{
    C::new(key).decipher(*block)
}
