// The hardware ID of a checked user permit, in the caller's working buffer and nowhere else.
ghost use Rattle.std.specs.Prelude.{◌≡◌, replicate, Decides};
ghost use Rattle.user_permit.specs.Hardware.{hardware_id};

use crate::permit::UserPermit;
use crate::secrets::{HardwareId, ManufacturerKey};
use cipher::block_cipher::BlockCipher;
use cipher::single;
use octets::block::Block;
use octets::working::Working;

impl UserPermit {
    // Puts the hardware ID into the working buffer, which the guard's end wipes. That it is still the caller's (`lent`) is
    // a fact of the call, and not of the value.
    pub fn recover<C: BlockCipher + Drop>(&self, key: &ManufacturerKey, working: &mut Working<'_>)
        ensures held { working.new.bytes.now ≡ hardware_id C.dec key.now.0 self.now.text }
        ensures lent { working.new.bytes.ghost_name ≡ working.old.bytes.ghost_name }
    {
        working.put(single::decipher::<C>(&key.0, &self.encrypted));
    }

    // Whether this user permit is for a hardware ID.
    pub fn is_for<C: BlockCipher + Drop>(
        &self,
        key: &ManufacturerKey,
        hardware: &HardwareId,
        buffer: &mut Block,
    ) -> bool
        ensures answer { Decides result (hardware_id C.dec key.now.0 self.now.text ≡ hardware.now.0) }
        ensures wiped { buffer.new ≡ replicate 16 0 }
    {
        let mut working = Working::over(buffer);
        self.recover::<C>(key, &mut working);
        *working.secret() == hardware.0
    }
}
