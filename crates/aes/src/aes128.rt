// AES-128, version 1.0.0.
ghost use Rattle.std.specs.Prelude.{◌≡◌, map, codes};
ghost use Rattle.aes.specs.Cipher.{round_keys as round_keys_of, enc_block, dec_block, Examples};
ghost use Rattle.aes.specs.Ciphers.{dec_block_undoes_enc_block, enc_block_undoes_dec_block, enc_block_sixteen, dec_block_sixteen};
ghost use Rattle.std.proofs.Common.{rules};

use crate::columns::{inv_mix_columns, mix_columns};
use crate::key_schedule::{ROUND_KEYS, RoundKey, expand};
use crate::rows::{inv_shift_rows, shift_rows};
use crate::s_box::{inv_sub_bytes, sub_bytes};
use crate::state::{add_round_key, from_block, to_block};
use cipher::block_cipher::BlockCipher;
use octets::block::Block;

const ROUNDS: usize = 10;

// A key, and the round keys that it is expanded to, once for all blocks.
#[derive(Drop)]
pub struct Aes128 {
    key: Block,
    round_keys: [RoundKey; ROUND_KEYS],
    ghost expanded: { map (λ k. k.columns) round_keys ≡ round_keys_of key },
}

impl BlockCipher for Aes128 {
    ghost enc = { enc_block };

    ghost dec = { dec_block };

    ghost held = { λ c. c.key };

    ghost label = { codes "1.0.0" };

    ghost deciphered = { dec_block_undoes_enc_block };

    ghost enciphered = { enc_block_undoes_dec_block };

    ghost enc_sixteen = { enc_block_sixteen };

    ghost dec_sixteen = { dec_block_sixteen };

    ghost labelled = { Prim.search rules };

    fn version() -> [u8; 5] {
        *b"1.0.0"
    }

    fn new(key: &Block) -> Aes128 {
        Aes128 {
            key: *key,
            round_keys: expand(key),
        }
    }

    fn encipher(&self, block: Block) -> Block
        ensures value { result ≡ enc_block self.now.key block }
        ensures examples { Examples }
    {
        // by places, here and below: a pattern of an array behind a reference gets no proof
        let mut s = add_round_key(from_block(block), &self.round_keys[0]);
        for key in &self.round_keys[1..ROUNDS] {
            s = add_round_key(mix_columns(shift_rows(sub_bytes(s))), key);
        }
        to_block(add_round_key(shift_rows(sub_bytes(s)), &self.round_keys[ROUNDS]))
    }

    fn decipher(&self, block: Block) -> Block {
        let mut s = add_round_key(from_block(block), &self.round_keys[ROUNDS]);
        for key in self.round_keys[1..ROUNDS].iter().rev() {
            s = inv_mix_columns(add_round_key(inv_sub_bytes(inv_shift_rows(s)), key));
        }
        to_block(add_round_key(inv_sub_bytes(inv_shift_rows(s)), &self.round_keys[0]))
    }
}
