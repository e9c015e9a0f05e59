// A block printed by its hexadecimal digits.
ghost use Rattle.std.specs.Prelude.{◌≡◌, Some};
ghost use Rattle.octets.specs.Hex.{Digits, hex as hex_of};

use octets::block::Block;
use octets::hex;
use std::fmt;
use std::str::from_utf8_unchecked;

#[derive(Drop)]
pub struct HexText(pub Block);

fn digits_of(block: Block) -> [u8; 32]
    ensures value { result ≡ hex_of block }
    ensures hexadecimal { Digits result }
{
    let mut digits = [0; 32];
    hex::encode(&block, &mut digits).unwrap();
    digits
}

impl fmt::Display for HexText {
    ghost output = { λ t. Some (hex_of t.0) };

    fn fmt<W: fmt::Write>(&self, f: &mut fmt::Formatter<W>) -> fmt::Result {
        let digits = digits_of(self.0);
        // digits are ASCII
        f.pad(unsafe { from_utf8_unchecked(&digits) })
    }
}
