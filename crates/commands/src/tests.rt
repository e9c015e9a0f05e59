// Examples of key files, and of what is said where no user permit is made.
use crate::key_file;
use crate::make::user_permit;
use crate::refused::Refused;
use aes::aes128::Aes128;
use std::alloc::{AllocError, Global};
use std::test::Fail;

#[test]
fn key_files(rt: HostRuntime) {
    assert_eq!(rt;
        key_file::read(b"000102030405060708090A0B0C0D0E0F").is_ok(),
        true
    );
    assert_eq!(rt;
        key_file::read(b"000102030405060708090A0B0C0D0E0F\n").is_ok(),
        true
    );
    assert_eq!(rt;
        key_file::read(b"000102030405060708090A0B0C0D0E0F\n\n").is_ok(),
        false
    );
    assert_eq!(rt;
        key_file::read(b"000102030405060708090A0B0C0D0E0F\r\n").is_ok(),
        false
    );
    assert_eq!(rt;
        key_file::read(b"000102030405060708090a0b0c0d0e0f").is_ok(),
        false
    );
    assert_eq!(rt; key_file::read(b"").is_ok(), false);
}

// The manufacturer key of the user permits that Part 15 prints.
const KEY: &[u8] = b"4D5A79677065774A7343705272664F72\n";

fn said(
    heap: Global,
    id: &[u8],
    key_file: &[u8],
    hardware_file: &[u8],
) -> Result<String, AllocError> {
    match user_permit::<Aes128>(id, key_file, hardware_file) {
        Ok(permit) => format!(in heap; "{permit}"),
        Err(refusal) => format!(in heap; "{}", Refused(&refusal)),
    }
}

#[test]
fn made_as_printed(rt: HostRuntime) -> Result<(), Fail> {
    let first = said(
        rt.alloc(),
        b"859868",
        KEY,
        b"40384B45B54596201114FE9904220101",
    )?;
    assert_eq!(rt;
        first.as_str(),
        "AD1DAD797C966EC9F6A55B66ED98281599B3C7B1859868"
    );
    let second = said(
        rt.alloc(),
        b"859868",
        KEY,
        b"40384B45B54596201114FE9904220142",
    )?;
    assert_eq!(rt;
        second.as_str(),
        "267C3AD506E69B1ED18AA5ECC7FFDE6E7C330CE8859868"
    );
    Ok(())
}

#[test]
fn refused(rt: HostRuntime) -> Result<(), Fail> {
    let no_id = said(rt.alloc(), b"85986", KEY, KEY)?;
    assert_eq!(rt;
        no_id.as_str(),
        "refused\t4\ta manufacturer ID has six characters of 0 to 9 and A to Z"
    );
    let no_key = said(rt.alloc(), b"859868", b"00", KEY)?;
    assert_eq!(rt;
        no_key.as_str(),
        "refused\t4\ta key file holds 32 hexadecimal digits, 0 to 9 and A to F"
    );
    Ok(())
}
