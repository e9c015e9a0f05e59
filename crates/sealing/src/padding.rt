// Padding after PKCS#7: put on the last block, and looked for in the last block.
ghost use Rattle.std.specs.Prelude.{◌≡◌, ◌-◌, ◌<◌, ◌++◌, length, replicate};
ghost use Rattle.sealing.specs.Padding.{Ended};

use octets::block::Block;

// The end of a dataset, less than a block, with its padding.
pub(crate) fn pad(rest: &[u8]) -> Block
    requires { length rest.now < 16 }
    ensures { result ≡ rest.now ++ replicate (16 - length rest.now) (16 - length rest.now) }
{
    let count = rest.len();
    // the cast is proved to lose nothing, which `try_from` would test again
    let mut block = [(16 - count) as u8; 16];
    block[0..count].copy_from_slice(rest);
    block
}

// How many bytes of the last plain block are padding, if it is good.
pub(crate) fn padding_of(last: &Block) -> Option<usize>
    ensures { Ended last.now result }
{
    let count = usize::from(last[15]);
    if count < 1 || count > 16 {
        return None;
    }
    last[16 - count..16]
        .iter()
        .all(|b| *b == last[15])
        .then_some(count)
}
