// Examples of user permits.
use crate::check;
use crate::make::make;
use crate::secrets::{HardwareId, ManufacturerKey};
use cipher::demonstration::Demonstration;
use octets::refusal::Refusal;

// The number of a refusal, and 0 where there is none, as the checking program prints them.
fn number<T: Drop, R: Refusal + Drop>(answer: Result<T, R>) -> u8 {
    answer.err().map_or(0, |refusal| refusal.number())
}

fn verdict(text: &[u8]) -> u8 {
    number(check::check(text))
}

// The user permits that Part 15 prints, and a checksum that has been printed with the second.
#[test]
fn printed(rt: HostRuntime) {
    assert_eq!(rt;
        verdict(b"AD1DAD797C966EC9F6A55B66ED98281599B3C7B1859868"),
        0
    );
    assert_eq!(rt;
        verdict(b"267C3AD506E69B1ED18AA5ECC7FFDE6E7C330CE8859868"),
        0
    );
    assert_eq!(rt;
        verdict(b"267C3AD506E69B1ED18AA5ECC7FFDE6EF9F11C06859868"),
        3
    );
}

#[test]
fn refused_in_order(rt: HostRuntime) {
    assert_eq!(rt; verdict(b""), 1);
    assert_eq!(rt; verdict(b"859868"), 1);
    assert_eq!(rt;
        verdict(b"GGGGGGGGGGGGGGGGGGGGGGGGGGGGGGGGGGGGGGGGGGGGGG"),
        2
    );
    assert_eq!(rt;
        verdict(b"ad1dAD797C966EC9F6A55B66ED98281599B3C7B1859868"),
        2
    );
    assert_eq!(rt;
        verdict(b"AD1DAD797C966EC9F6A55B66ED98281599B3C7Bg859868"),
        2
    );
    assert_eq!(rt;
        verdict(b"AD1DAD797C966EC9F6A55B66ED98281599B3C7B185986a"),
        2
    );
    assert_eq!(rt;
        verdict(b"AD1DAD797C966EC9F6A55B66ED98281599B3C7B2859868"),
        3
    );
}

fn made(id: &[u8], out: &mut [u8]) -> u8 {
    let key = ManufacturerKey([255; 16]);
    number(make::<Demonstration>(id, &key, &HardwareId([0; 16]), out))
}

#[test]
fn made_at_the_front(rt: HostRuntime) {
    let mut out = *b"------------------------------------------------";
    assert_eq!(rt; made(b"ABC123", &mut out), 0);
    assert_eq!(rt; out, *b"FFFFFFFFFFFFFFFFFFFFFFFFFFFFFFFF17E31E78ABC123--");
}

#[test]
fn not_made(rt: HostRuntime) {
    let mut out = *b"---------------------------------------------";
    assert_eq!(rt; made(b"abc123", &mut out), 4);
    assert_eq!(rt; made(b"ABC1234", &mut out), 4);
    assert_eq!(rt; made(b"ABC123", &mut out), 11);
    assert_eq!(rt; out, *b"---------------------------------------------");
}
