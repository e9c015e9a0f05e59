// AES-128 of FIPS 197, step by step as the standard has it.
#![tactic(auto)]

pub mod aes128;
mod columns;
mod key_schedule;
mod rows;
mod s_box;
mod state;
