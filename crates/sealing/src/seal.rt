// Sealing a dataset.
ghost use Rattle.std.specs.Prelude.{◌≡◌, length, take, IfOk, if◌then◌else◌, Some, None, nat_le};
ghost use Rattle.octets.specs.Bytes.{◌⊕◌};
ghost use Rattle.octets.specs.Output.{WritesSuch};
ghost use Rattle.sealing.specs.Seal.{Sealed, Distinct, Examples, limit, sealed_length, seal_refused, seal_number, seal_words};
ghost use Rattle.sealing.specs.declared.seal.SealRefusal.TheVariants.{Output};

use crate::blocks::store;
use crate::padding::pad;
use crate::values::{Beginning, DatasetKey};
use cipher::block_cipher::BlockCipher;
use cipher::keyed::keyed;
use octets::block::{Block, xor};
use octets::output::{TooShort, room_for};
use octets::refusal::Refusal;
use std::fmt;

// The bytes of the longest dataset.
pub const LIMIT: usize = 10_485_760;

#[derive(Clone, Copy, Debug, PartialEq, Eq)]
pub enum SealRefusal {
    // the dataset is over its limit
    TooLong,
    // the output has no room for the sealed bytes
    Output(TooShort),
}

impl Refusal for SealRefusal {
    ghost numbered = { seal_number };

    fn number(&self) -> u8 {
        match self {
            SealRefusal::TooLong => 9,
            SealRefusal::Output(short) => short.number(),
        }
    }
}

impl fmt::Display for SealRefusal {
    ghost output = { λ e. Some (seal_words e) };

    fn fmt<W: fmt::Write>(&self, f: &mut fmt::Formatter<W>) -> fmt::Result {
        f.pad(match self {
            SealRefusal::TooLong => "a dataset has at most 10485760 bytes",
            SealRefusal::Output(_) => "the output has no room for the sealed bytes",
        })
    }
}

impl From<TooShort> for SealRefusal {
    ghost from_gives = { λ short r. r ≡ Output short };

    fn from(short: TooShort) -> SealRefusal {
        SealRefusal::Output(short)
    }
}

// How many bytes a dataset of so many is sealed to, if it is within its limit.
pub fn sealed_length(count: usize) -> Option<usize>
    ensures { result ≡ (if nat_le count limit then Some (sealed_length count) else None) }
{
    if count > LIMIT {
        return None;
    }
    Some(32 + count - count % 16)
}

// The sealed block of a plain one, chained to the block before it.
fn sealed_block<C: BlockCipher>(cipher: &C, before: &Block, plain: &Block) -> Block
    ensures { result ≡ C.enc (C.held cipher.now) (plain.now ⊕ before.now) }
{
    cipher.encipher(xor(*plain, *before))
}

// Writes the dataset sealed: a leading block and the padded dataset, each block chained to the sealed one before.
pub fn seal<C: BlockCipher + Drop>(
    key: &DatasetKey,
    beginning: &Beginning,
    dataset: &[u8],
    out: &mut [u8],
) -> Result<usize, SealRefusal>
    ensures written { WritesSuch (seal_refused (length dataset.now) (length out.old)) (Sealed C.enc key.now.0 beginning.now.lead.0 beginning.now.start.0 dataset.now) result out.old out.new }
    ensures count { IfOk result (λ n. n ≡ sealed_length (length dataset.now)) }
    ensures distinct { IfOk result (λ n. Distinct C.enc key.now.0 dataset.now (take n out.new)) }
    ensures examples { Examples }
{
    let count = sealed_length(dataset.len()).ok_or(SealRefusal::TooLong)?;
    room_for(count, out)?;
    let cipher = keyed::<C>(&key.0);
    let mut before = sealed_block(&cipher, &beginning.start.0, &beginning.lead.0);
    store(out, 0, &before);
    let (whole, rest) = dataset.as_chunks::<16>();
    for (i, block) in whole.iter().enumerate() {
        let sealed = sealed_block(&cipher, &before, block);
        store(out, i + 1, &sealed);
        before = sealed;
    }
    let last = sealed_block(&cipher, &before, &pad(rest));
    store(out, whole.len() + 1, &last);
    Ok(count)
}
