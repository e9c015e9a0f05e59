// The two calls for C, over AES-128. include/s100_sealing.h declares them. C hands over each block as two numbers, and is
// answered one number: the bytes written or, below zero, the number of a refusal.
#![tactic(auto)]

ghost use Rattle.std.specs.Prelude.{◌≡◌, ◌^◌, ◌<◌, IfOk};
ghost use Rattle.aes.specs.Cipher.{enc_block, dec_block};
ghost use Rattle.sealing_c.specs.Calls.{answered, sixteen_bytes, SealsForC, OpensForC};

use aes::aes128::Aes128;
use octets::block::Block;
use octets::refusal::Refusal;
use sealing::open::open_with_key;
use sealing::seal::seal;
use sealing::values::{Beginning, DatasetKey, LeadingBlock, StartingVector};

fn block(high: u64, low: u64) -> Block
    ensures { result ≡ sixteen_bytes high low }
{
    ((u128::from(high) << 64) + u128::from(low)).to_be_bytes()
}

fn answer<R: Refusal + Drop>(outcome: Result<usize, R>) -> i64
    requires { IfOk outcome (λ n. n < 2 ^ 63) }
    ensures { result ≡ answered R.Refusal.numbered outcome }
{
    match outcome {
        // the cast is proved to lose nothing, which `try_from` would test again
        Ok(count) => count as i64,
        Err(refusal) => -i64::from(refusal.number()),
    }
}

#[unsafe(no_mangle)]
pub extern "C" fn s100_seal(
    key_hi: u64,
    key_lo: u64,
    lead_hi: u64,
    lead_lo: u64,
    start_hi: u64,
    start_lo: u64,
    dataset: &[u8],
    out: &mut [u8],
) -> i64
    ensures { SealsForC enc_block (sixteen_bytes key_hi key_lo) (sixteen_bytes lead_hi lead_lo) (sixteen_bytes start_hi start_lo) dataset.now result out.old out.new }
{
    let key = DatasetKey(block(key_hi, key_lo));
    let beginning = Beginning {
        lead: LeadingBlock(block(lead_hi, lead_lo)),
        start: StartingVector(block(start_hi, start_lo)),
    };
    answer(seal::<Aes128>(&key, &beginning, dataset, out))
}

#[unsafe(no_mangle)]
pub extern "C" fn s100_open(key_hi: u64, key_lo: u64, sealed: &[u8], out: &mut [u8]) -> i64
    ensures { OpensForC enc_block dec_block (sixteen_bytes key_hi key_lo) sealed.now result out.old out.new }
{
    let key = DatasetKey(block(key_hi, key_lo));
    answer(open_with_key::<Aes128>(&key, sealed, out))
}
