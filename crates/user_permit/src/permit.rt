// A checked user permit. Its parts were read when it was checked, so nothing done with one tests them again.
ghost use Rattle.std.specs.Prelude.{◌≡◌, take, drop, Some};
ghost use Rattle.octets.specs.Hex.{unhex};
ghost use Rattle.user_permit.specs.Lawful.{Lawful};

use fields::manufacturer_id::ManufacturerId;
use octets::block::Block;
use std::fmt;
use std::str::from_utf8_unchecked;

#[derive(Clone, Copy)]
pub struct UserPermit {
    pub(crate) text: [u8; 46],
    pub(crate) encrypted: Block,
    pub(crate) manufacturer: ManufacturerId,
    ghost lawful: { Lawful text },
    ghost block: { unhex (take 32 text) ≡ encrypted },
    ghost maker: { manufacturer.text ≡ drop 40 text },
}

impl UserPermit {
    pub fn text(&self) -> &[u8; 46]
        ensures { result.now ≡ self.now.text }
    {
        &self.text
    }

    #[tactic(auto, using(crate::proofs::Sets::permit_utf8))]
    pub fn as_str(&self) -> &str
        ensures { result.now ≡ self.now.text }
    {
        // each character is a digit or a capital letter
        unsafe { from_utf8_unchecked(&self.text) }
    }

    pub fn manufacturer(&self) -> ManufacturerId
        ensures { result.text ≡ drop 40 self.now.text }
    {
        self.manufacturer
    }
}

impl fmt::Display for UserPermit {
    ghost output = { λ p. Some p.text };

    fn fmt<W: fmt::Write>(&self, f: &mut fmt::Formatter<W>) -> fmt::Result {
        f.pad(self.as_str())
    }
}
