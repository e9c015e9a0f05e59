// What is printed for a line: the block enciphered, a tab and the block deciphered, or that the line is no vector.
ghost use Rattle.check_aes.specs.Answer.{row as row_of};

use crate::hex_text::HexText;
use crate::{repeat, vector};
use cipher::block_cipher::BlockCipher;
use lines::report::Row;
use std::alloc::{AllocError, Global};
use std::marker::PhantomData;

pub struct Answers<C>(PhantomData<C>);

impl<C: BlockCipher + Drop> Row for Answers<C> {
    ghost row = { λ _. row_of C.BlockCipher.enc C.BlockCipher.dec };

    fn make(heap: Global, _number: u64, line: &[u8]) -> Result<String, AllocError> {
        let Some(vector) = vector::read(line) else {
            return String::from_str(heap, "unfit\n");
        };
        let cipher = C::new(&vector.key);
        let enciphered = HexText(repeat::encipher(&cipher, vector.count, vector.block));
        let deciphered = HexText(repeat::decipher(&cipher, vector.count, vector.block));
        format!(in heap; "{enciphered}\t{deciphered}\n")
    }
}
