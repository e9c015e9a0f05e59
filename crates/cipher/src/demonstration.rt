// The demonstration cipher, version 0.0.1, for exhibition sets.
ghost use Rattle.std.specs.Prelude.{◌≡◌, codes};
ghost use Rattle.cipher.specs.Demonstration.{enc_block, dec_block, Examples};
ghost use Rattle.cipher.specs.Shift.{dec_block_undoes_enc_block, enc_block_undoes_dec_block, enc_block_sixteen, dec_block_sixteen};
ghost use Rattle.std.proofs.Common.{rules};

use crate::block_cipher::BlockCipher;
use octets::block::Block;
use std::array;

#[derive(Drop)]
pub struct Demonstration {
    key: Block,
}

impl BlockCipher for Demonstration {
    ghost enc = { enc_block };

    ghost dec = { dec_block };

    ghost held = { λ c. c.key };

    ghost label = { codes "0.0.1" };

    ghost deciphered = { dec_block_undoes_enc_block };

    ghost enciphered = { enc_block_undoes_dec_block };

    ghost enc_sixteen = { enc_block_sixteen };

    ghost dec_sixteen = { dec_block_sixteen };

    ghost labelled = { Prim.search rules };

    fn version() -> [u8; 5] {
        *b"0.0.1"
    }

    fn new(key: &Block) -> Demonstration {
        Demonstration { key: *key }
    }

    fn encipher(&self, block: Block) -> Block
        ensures value { result ≡ enc_block self.now.key block }
        ensures examples { Examples }
    {
        array::from_fn(|i| block[(i + 1) % 16].wrapping_add(self.key[i]))
    }

    fn decipher(&self, block: Block) -> Block {
        array::from_fn(|i| {
            let from = (i + 15) % 16;
            block[from].wrapping_sub(self.key[from])
        })
    }
}
