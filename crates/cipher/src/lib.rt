// The interface of a block cipher with its laws, single blocks under a key, and the demonstration cipher.
#![tactic(auto)]

pub mod block_cipher;
pub mod demonstration;
pub mod keyed;
pub mod single;
