// Sealed datasets: sealing, and opening under a known key, over every lawful block cipher.
#![tactic(auto)]

mod blocks;
pub mod open;
mod padding;
pub mod seal;
pub mod values;
