// Opening a sealed dataset under a known key.
ghost use Rattle.std.specs.Prelude.{◌≡◌, ◌≤◌, length, IfOk, Some};
ghost use Rattle.octets.specs.Bytes.{◌⊕◌};
ghost use Rattle.octets.specs.Output.{Writes};
ghost use Rattle.cipher.specs.Keyed.{Keyed};
ghost use Rattle.sealing.specs.Damage.{Withstands};
ghost use Rattle.sealing.specs.Open.{is_sealed_length, opening, Recovers, open_number, open_words};
ghost use Rattle.sealing.specs.declared.open.OpenRefusal.TheVariants.{Output};

use crate::blocks::store;
use crate::padding::padding_of;
use crate::values::DatasetKey;
use cipher::block_cipher::BlockCipher;
use cipher::keyed::keyed;
use octets::block::{Block, xor};
use octets::output::{TooShort, room_for};
use octets::refusal::Refusal;
use std::fmt;

// The bytes of the longest sealed dataset.
pub const SEALED_LIMIT: usize = 10_485_792;

#[derive(Clone, Copy, Debug, PartialEq, Eq)]
pub enum OpenRefusal {
    // no sealed dataset has this length
    Length,
    // what was opened does not end in good padding
    Padding,
    // the output has no room for the dataset
    Output(TooShort),
}

impl Refusal for OpenRefusal {
    ghost numbered = { open_number };

    fn number(&self) -> u8 {
        match self {
            OpenRefusal::Length => 9,
            OpenRefusal::Padding => 10,
            OpenRefusal::Output(short) => short.number(),
        }
    }
}

impl fmt::Display for OpenRefusal {
    ghost output = { λ e. Some (open_words e) };

    fn fmt<W: fmt::Write>(&self, f: &mut fmt::Formatter<W>) -> fmt::Result {
        f.pad(match self {
            OpenRefusal::Length => {
                "a sealed dataset has 32 to 10485792 bytes, in whole blocks of 16"
            }
            OpenRefusal::Padding => "what was opened does not end in good padding",
            OpenRefusal::Output(_) => "the output has no room for the dataset",
        })
    }
}

impl From<TooShort> for OpenRefusal {
    ghost from_gives = { λ short r. r ≡ Output short };

    fn from(short: TooShort) -> OpenRefusal {
        OpenRefusal::Output(short)
    }
}

fn is_sealed_length(count: usize) -> bool
    ensures { result ≡ is_sealed_length count }
{
    (32..=SEALED_LIMIT).contains(&count) && count % 16 == 0
}

// The plain block of a sealed one, which was chained to the sealed one before it.
fn plain_block<C: BlockCipher>(cipher: &C, before: &Block, sealed: &Block) -> Block
    ensures { result ≡ C.dec (C.held cipher.now) sealed.now ⊕ before.now }
{
    xor(cipher.decipher(*sealed), *before)
}

// Writes the dataset. Its length is known from the last block alone, so nothing is stored before it is sure to fit.
fn open_by<C: BlockCipher>(cipher: &C, sealed: &[u8], out: &mut [u8]) -> Result<usize, OpenRefusal>
    requires { Keyed C.enc C.dec (C.held cipher.now) }
    ensures { Writes (opening C.dec (C.held cipher.now) sealed.now (length out.old)) result out.old out.new }
{
    if !is_sealed_length(sealed.len()) {
        return Err(OpenRefusal::Length);
    }
    let (blocks, _) = sealed.as_chunks::<16>();
    let whole = blocks.len() - 2;
    let last = plain_block(cipher, &blocks[whole], &blocks[whole + 1]);
    let padding = padding_of(&last).ok_or(OpenRefusal::Padding)?;
    let rest = 16 - padding;
    let count = 16 * whole + rest;
    room_for(count, out)?;
    // the block before is `blocks[i]`, which a pair of neighbours would only name again
    for (i, block) in blocks[1..=whole].iter().enumerate() {
        let plain = plain_block(cipher, &blocks[i], block);
        store(out, i, &plain);
    }
    out[16 * whole..count].copy_from_slice(&last[0..rest]);
    Ok(count)
}

pub fn open_with_key<C: BlockCipher + Drop>(
    key: &DatasetKey,
    sealed: &[u8],
    out: &mut [u8],
) -> Result<usize, OpenRefusal>
    ensures written { Writes (opening C.dec key.now.0 sealed.now (length out.old)) result out.old out.new }
    ensures within { IfOk result (λ n. n ≤ length out.old) }
    ensures recovered { Recovers C.enc key.now.0 sealed.now result out.old out.new }
    ensures damaged { Withstands C.enc key.now.0 sealed.now result out.old out.new }
{
    let cipher = keyed::<C>(&key.0);
    open_by(&cipher, sealed, out)
}
