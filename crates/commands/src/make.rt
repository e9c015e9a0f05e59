// A user permit from a manufacturer ID and two key files.
ghost use Rattle.std.specs.Prelude.{◌≡◌};
ghost use Rattle.commands.specs.Make.{Makes};
ghost use Rattle.commands.specs.declared.key_file.KeyFileOr.TheVariants.{Call};

use crate::key_file;
use crate::key_file::KeyFileOr;
use cipher::block_cipher::BlockCipher;
use user_permit::check::check;
use user_permit::make::{MakeRefusal, make};
use user_permit::permit::UserPermit;
use user_permit::secrets::{HardwareId, ManufacturerKey};

pub type NotMade = KeyFileOr<MakeRefusal>;

impl From<MakeRefusal> for NotMade {
    ghost from_gives = { λ refusal r. r ≡ Call refusal };

    fn from(refusal: MakeRefusal) -> NotMade {
        KeyFileOr::Call(refusal)
    }
}

// What is made is always accepted by the check, so there is a permit to unwrap.
pub fn user_permit<C: BlockCipher + Drop>(
    id: &[u8],
    key_file: &[u8],
    hardware_file: &[u8],
) -> Result<UserPermit, NotMade>
    ensures { Makes C.enc id.now key_file.now hardware_file.now result }
{
    let key = ManufacturerKey(key_file::read(key_file)?);
    let hardware = HardwareId(key_file::read(hardware_file)?);
    let mut text = [0; 46];
    make::<C>(id, &key, &hardware, &mut text)?;
    Ok(check(&text).unwrap())
}
