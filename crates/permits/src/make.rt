// The command that makes a user permit.
use crate::failure::Failure;
use aes::aes128::Aes128;
use commands::call::Making;
use commands::make::user_permit;
use std::fs;

fn contents(rt: &HostRuntime, file: &str) -> Result<Vec<u8>, Failure> {
    fs::read(rt, file).try_map_err(|error| -> Result<Failure, Failure> {
        Ok(Failure::Unreadable(String::from_str(rt.alloc(), file)?, error))
    })
}

pub(crate) fn run(rt: &HostRuntime, making: &Making<'_>) -> Result<(), Failure> {
    let key = contents(rt, making.key_file)?;
    let hardware = contents(rt, making.hardware_file)?;
    let permit = user_permit::<Aes128>(making.id.as_bytes(), key.as_slice(), hardware.as_slice())?;
    println!(rt; "{permit}")?;
    Ok(())
}
