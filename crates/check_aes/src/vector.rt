// A test vector: how often a block goes through the cipher, under which key.
ghost use Rattle.check_aes.specs.Vector.{Reads};

use octets::block::Block;
use octets::hex;

#[derive(Drop)]
pub struct Vector {
    pub count: u16,
    pub key: Block,
    pub block: Block,
}

// The count's four digits, the key's 32 and the block's 32, with a space between them. By name, as every text is read.
pub fn read(line: &[u8]) -> Option<Vector>
    ensures { Reads line.now result }
{
    // by the places that the form names: one length covers them all, where cutting off one field after another would test
    // the length of each
    if line.len() != 70 || line[4] != b' ' || line[37] != b' ' {
        return None;
    }
    let count = hex::decode(&line[0..4])?;
    let key = hex::decode(&line[5..37])?;
    let block = hex::decode(&line[38..70])?;
    Some(Vector {
        count: u16::from_be_bytes(count),
        key,
        block,
    })
}
