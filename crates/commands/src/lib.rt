// What the product's commands do, as functions on values: the program itself only reads and prints.
#![tactic(auto)]

pub mod call;
pub mod key_file;
pub mod make;
pub mod open;
pub mod refused;
pub mod seal;
#[cfg(test)]
mod tests;
pub mod turned;
