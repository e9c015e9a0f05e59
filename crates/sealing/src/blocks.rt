// A block put into its place in a run of bytes, counted from 0. By its place, since no contract says what a slice ends as
// whose pieces were written through `as_chunks_mut`.
ghost use Rattle.std.specs.Prelude.{◌≡◌, ◌+◌, ◌*◌, ◌≤◌, ◌++◌, length, take, drop};

use octets::block::Block;

pub(crate) fn store(out: &mut [u8], i: usize, block: &Block)
    requires { 16 * i + 16 ≤ length out.old }
    ensures { out.new ≡ take (16 * i) out.old ++ (block.now ++ drop (16 * i + 16) out.old) }
{
    out[16 * i..16 * i + 16].copy_from_slice(block);
}
