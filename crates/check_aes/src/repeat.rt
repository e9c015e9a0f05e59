// A block cipher over and over, each time on its own result.
ghost use Rattle.std.specs.Prelude.{◌≡◌, ℕ, List};
ghost use Rattle.check_aes.specs.Repeated.{repeated, Computes};

use cipher::block_cipher::BlockCipher;
use octets::block::Block;

// Any step, so often.
fn repeat<F: Fn(Block) -> Block>(count: u16, mut block: Block, step: F) -> Block
    requires { F.IsAlwaysCallable step }
    ensures { (next : List ℕ → List ℕ) → Computes (F.post step) next → result ≡ repeated next count block }
{
    for _ in 0..count {
        // an array that a call answers is proved only in a variable of its own
        let next = step(block);
        block = next;
    }
    block
}

pub fn encipher<C: BlockCipher>(cipher: &C, count: u16, block: Block) -> Block
    ensures { result ≡ repeated (C.enc (C.held cipher.now)) count block }
{
    let step = |block: Block| -> Block
        ensures { result ≡ C.enc (C.held cipher.entry.now) block }
    { cipher.encipher(block) };
    repeat(count, block, step)
}

pub fn decipher<C: BlockCipher>(cipher: &C, count: u16, block: Block) -> Block
    ensures { result ≡ repeated (C.dec (C.held cipher.now)) count block }
{
    let step = |block: Block| -> Block
        ensures { result ≡ C.dec (C.held cipher.entry.now) block }
    { cipher.decipher(block) };
    repeat(count, block, step)
}
