// Answers test vectors of AES-128: for each line of standard input a block, enciphered and deciphered.
#![tactic(auto)]

mod answer;
mod hex_text;
mod repeat;
mod vector;

use aes::aes128::Aes128;
use answer::Answers;
use cipher::block_cipher::BlockCipher;
use lines::report::report;
use std::io;
use std::io::Read;

// Reading and writing stay with each program: a function for both would be as long, and put the runtime into the library.
fn main(rt: HostRuntime) -> io::Result<()> {
    let mut input = Vec::new(rt.alloc());
    rt.stdin().read_to_end(&mut input)?;
    let text = report::<Answers<Aes128>>(rt.alloc(), input.as_slice())?;
    rt.write_all(text.as_bytes())
}
