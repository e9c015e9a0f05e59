// A sealed dataset opened under the key of a key file.
ghost use Rattle.std.specs.Prelude.{◌≡◌, ◌≤◌, length, IfOk};
ghost use Rattle.octets.specs.Output.{Writes};
ghost use Rattle.commands.specs.Open.{opening_with_file};
ghost use Rattle.commands.specs.declared.key_file.KeyFileOr.TheVariants.{Call};

use crate::key_file;
use crate::key_file::KeyFileOr;
use cipher::block_cipher::BlockCipher;
use sealing::open::{OpenRefusal, open_with_key};
use sealing::values::DatasetKey;

pub type NotOpened = KeyFileOr<OpenRefusal>;

impl From<OpenRefusal> for NotOpened {
    ghost from_gives = { λ refusal r. r ≡ Call refusal };

    fn from(refusal: OpenRefusal) -> NotOpened {
        KeyFileOr::Call(refusal)
    }
}

// The key file is tried before the sealed bytes.
pub fn open_with_file<C: BlockCipher + Drop>(
    key_file: &[u8],
    sealed: &[u8],
    out: &mut [u8],
) -> Result<usize, NotOpened>
    ensures written { Writes (opening_with_file C.dec key_file.now sealed.now (length out.old)) result out.old out.new }
    ensures within { IfOk result (λ n. n ≤ length out.old) }
{
    let key = DatasetKey(key_file::read(key_file)?);
    Ok(open_with_key::<C>(&key, sealed, out)?)
}
