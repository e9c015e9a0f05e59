// User permits: a ship's hardware ID, enciphered under its manufacturer's key, with a checksum and the manufacturer ID.
#![tactic(auto)]

pub mod check;
pub mod crc;
pub mod make;
pub mod permit;
pub mod recover;
pub mod secrets;
#[cfg(test)]
mod tests;
