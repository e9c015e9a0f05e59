// What every layer shares: blocks, hexadecimal text, the working buffer, outputs and the number of a refusal.
#![tactic(auto)]

pub mod block;
pub mod hex;
pub mod output;
pub mod refusal;
pub mod working;
