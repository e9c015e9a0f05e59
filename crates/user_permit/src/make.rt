// Making a user permit.
ghost use Rattle.std.specs.Prelude.{◌≡◌, ◌≤◌, true, ◌++◌, length, take, drop, is_ok, IfOk, Some};
ghost use Rattle.octets.specs.Output.{Writes};
ghost use Rattle.user_permit.specs.Hardware.{hardware_id};
ghost use Rattle.user_permit.specs.Lawful.{Lawful, permit_text};
ghost use Rattle.user_permit.specs.Make.{make_number, make_words, making};
ghost use Rattle.user_permit.specs.declared.make.MakeRefusal.TheVariants.{Field, Output};

use crate::crc::crc32;
use crate::secrets::{HardwareId, ManufacturerKey};
use cipher::block_cipher::BlockCipher;
use cipher::single;
use fields::fault::FieldFault;
use fields::manufacturer_id::ManufacturerId;
use octets::block::Block;
use octets::hex;
use octets::output::{TooShort, room_for};
use octets::refusal::Refusal;
use std::fmt;

#[derive(Clone, Copy, Debug, PartialEq, Eq)]
pub enum MakeRefusal {
    // the manufacturer ID breaks its rule
    Field(FieldFault),
    // the output has no room for 46 characters
    Output(TooShort),
}

impl Refusal for MakeRefusal {
    ghost numbered = { make_number };

    fn number(&self) -> u8 {
        match self {
            MakeRefusal::Field(fault) => fault.number(),
            MakeRefusal::Output(short) => short.number(),
        }
    }
}

impl fmt::Display for MakeRefusal {
    ghost output = { λ e. Some (make_words e) };

    fn fmt<W: fmt::Write>(&self, f: &mut fmt::Formatter<W>) -> fmt::Result {
        f.pad(match self {
            MakeRefusal::Field(_) => "a manufacturer ID has six characters of 0 to 9 and A to Z",
            MakeRefusal::Output(_) => "the output has no room for 46 characters",
        })
    }
}

impl From<FieldFault> for MakeRefusal {
    ghost from_gives = { λ fault r. r ≡ Field fault };

    fn from(fault: FieldFault) -> MakeRefusal {
        MakeRefusal::Field(fault)
    }
}

impl From<TooShort> for MakeRefusal {
    ghost from_gives = { λ short r. r ≡ Output short };

    fn from(short: TooShort) -> MakeRefusal {
        MakeRefusal::Output(short)
    }
}

// The digits of the block, those of their checksum, and the manufacturer ID.
fn compose(encrypted: &Block, id: &ManufacturerId, out: &mut [u8])
    requires { 46 ≤ length out.old }
    ensures { out.new ≡ permit_text encrypted.now id.now.text ++ drop 46 out.old }
{
    let (digits, rest) = out.split_at_mut(32);
    let (sum, rest) = rest.split_at_mut(8);
    hex::encode(encrypted, digits).unwrap();
    hex::encode(&crc32(digits).to_be_bytes(), sum).unwrap();
    rest[..6].copy_from_slice(id.text());
}

// Writes the user permit of a hardware ID: 46 characters.
pub fn make<C: BlockCipher + Drop>(
    id: &[u8],
    key: &ManufacturerKey,
    hardware: &HardwareId,
    out: &mut [u8],
) -> Result<usize, MakeRefusal>
    ensures written { Writes (making C.enc id.now key.now.0 hardware.now.0 (length out.old)) result out.old out.new }
    ensures count { IfOk result (λ n. n ≡ 46) }
    ensures lawful { is_ok result ≡ true → Lawful (take 46 out.new) }
    ensures undone { is_ok result ≡ true → hardware_id C.dec key.now.0 (take 46 out.new) ≡ hardware.now.0 }
{
    let id = ManufacturerId::read(id)?;
    room_for(46, out)?;
    let encrypted = single::encipher::<C>(&key.0, &hardware.0);
    compose(&encrypted, &id, out);
    Ok(46)
}
