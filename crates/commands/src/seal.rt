// A dataset sealed under the key of a key file.
ghost use Rattle.std.specs.Prelude.{◌≡◌, length, IfOk};
ghost use Rattle.octets.specs.Output.{WritesSuch};
ghost use Rattle.sealing.specs.Seal.{Sealed, sealed_length};
ghost use Rattle.commands.specs.KeyFile.{key_in};
ghost use Rattle.commands.specs.Seal.{not_sealed};
ghost use Rattle.commands.specs.declared.key_file.KeyFileOr.TheVariants.{Call};

use crate::key_file;
use crate::key_file::KeyFileOr;
use cipher::block_cipher::BlockCipher;
use sealing::seal::{SealRefusal, seal};
use sealing::values::{Beginning, DatasetKey};

pub type NotSealed = KeyFileOr<SealRefusal>;

impl From<SealRefusal> for NotSealed {
    ghost from_gives = { λ refusal r. r ≡ Call refusal };

    fn from(refusal: SealRefusal) -> NotSealed {
        KeyFileOr::Call(refusal)
    }
}

// The key file is tried before the dataset.
pub fn seal_with_file<C: BlockCipher + Drop>(
    key_file: &[u8],
    beginning: &Beginning,
    dataset: &[u8],
    out: &mut [u8],
) -> Result<usize, NotSealed>
    ensures written { WritesSuch (not_sealed key_file.now (length dataset.now) (length out.old)) (Sealed C.enc (key_in key_file.now) beginning.now.lead.0 beginning.now.start.0 dataset.now) result out.old out.new }
    ensures count { IfOk result (λ n. n ≡ sealed_length (length dataset.now)) }
{
    let key = DatasetKey(key_file::read(key_file)?);
    Ok(seal::<C>(&key, beginning, dataset, out)?)
}
