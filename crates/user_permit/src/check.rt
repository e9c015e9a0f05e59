// From any text to a checked user permit.
ghost use Rattle.std.specs.Prelude.{◌≡◌, ℕ, true, List, is_err, Some};
ghost use Rattle.user_permit.specs.Alteration.{Altered};
ghost use Rattle.user_permit.specs.Lawful.{Lawful};
ghost use Rattle.user_permit.specs.Check.{check_number, check_words, Parted, Checked};

use crate::crc::crc32;
use crate::permit::UserPermit;
use fields::manufacturer_id::ManufacturerId;
use octets::block::Block;
use octets::hex;
use octets::refusal::Refusal;
use std::fmt;

#[derive(Clone, Copy, Debug, PartialEq, Eq)]
pub enum CheckRefusal {
    // the text has not 46 characters
    Length,
    // a character is outside its set
    Character,
    // the checksum disagrees with the 32 digits before it
    Checksum,
}

impl Refusal for CheckRefusal {
    ghost numbered = { check_number };

    fn number(&self) -> u8 {
        match self {
            CheckRefusal::Length => 1,
            CheckRefusal::Character => 2,
            CheckRefusal::Checksum => 3,
        }
    }
}

impl fmt::Display for CheckRefusal {
    ghost output = { λ e. Some (check_words e) };

    fn fmt<W: fmt::Write>(&self, f: &mut fmt::Formatter<W>) -> fmt::Result {
        f.pad(match self {
            CheckRefusal::Length => "a user permit has 46 characters",
            CheckRefusal::Character => "a character of the user permit is outside its set",
            CheckRefusal::Checksum => "the checksum of the user permit disagrees",
        })
    }
}

#[derive(Drop)]
struct Parts {
    encrypted: Block,
    checksum: [u8; 4],
    manufacturer: ManufacturerId,
}

impl Parts {
    // The parts of a text, if each character is in its set. By name, as every text is read.
    fn read(text: &[u8; 46]) -> Option<Parts>
        ensures { Parted text.now result }
    {
        let (encrypted, rest) = text.split_at(32);
        let (checksum, manufacturer) = rest.split_at(8);
        Some(Parts {
            encrypted: hex::decode(encrypted)?,
            checksum: hex::decode(checksum)?,
            manufacturer: ManufacturerId::read(manufacturer).ok()?,
        })
    }
}

pub fn check(text: &[u8]) -> Result<UserPermit, CheckRefusal>
    ensures answer { Checked text.now result }
    ensures altered { (t : List ℕ) → Lawful t → Altered t text.now → is_err result ≡ true }
{
    let text = <[u8; 46]>::try_from(text).map_err(|_| CheckRefusal::Length)?;
    let parts = Parts::read(&text).ok_or(CheckRefusal::Character)?;
    // of an array, `[..32]` leaves a bound open that `[0..32]` does not
    if parts.checksum != crc32(&text[0..32]).to_be_bytes() {
        return Err(CheckRefusal::Checksum);
    }
    Ok(UserPermit {
        text,
        encrypted: parts.encrypted,
        manufacturer: parts.manufacturer,
    })
}
