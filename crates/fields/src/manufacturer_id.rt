// A manufacturer ID: six characters of 0 to 9 and A to Z.
ghost use Rattle.std.specs.Prelude.{◌≡◌, true};
ghost use Rattle.fields.specs.ManufacturerId.{is_manufacturer_id, is_id_character};
ghost use Rattle.fields.specs.Fault.{Reads};

use crate::charset::{Charset, keeps_to};
use crate::fault::FieldFault;

struct IdCharacters;

impl Charset for IdCharacters {
    ghost member = { is_id_character };

    fn contains(c: u8) -> bool {
        c.is_ascii_digit() || c.is_ascii_uppercase()
    }
}

#[derive(Clone, Copy, Debug)]
pub struct ManufacturerId {
    text: [u8; 6],
    ghost lawful: { is_manufacturer_id text ≡ true },
}

impl ManufacturerId {
    pub fn read(text: &[u8]) -> Result<ManufacturerId, FieldFault>
        ensures { Reads is_manufacturer_id (λ id. id.text) text.now result }
    {
        match <[u8; 6]>::try_from(text) {
            Ok(text) if keeps_to::<IdCharacters>(&text) => Ok(ManufacturerId { text }),
            _ => Err(FieldFault),
        }
    }

    pub fn text(&self) -> &[u8; 6]
        ensures { result.now ≡ self.now.text }
    {
        &self.text
    }
}
