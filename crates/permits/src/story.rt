// The story that the program tells on built-in samples.
use crate::failure::Failure;
use crate::mistyped;
use crate::samples::{KEY, MANUFACTURER, OTHER_SHIP, SHIP, UNLAWFUL};
use aes::aes128::Aes128;
use cipher::block_cipher::BlockCipher;
use commands::make::NotMade;
use octets::refusal::Refusal;
use std::io;
use std::str::from_utf8;
use user_permit::check::check;
use user_permit::make::make;
use user_permit::permit::UserPermit;
use user_permit::secrets::HardwareId;

fn system(rt: &HostRuntime, hardware: &HardwareId) -> Result<[u8; 46], Failure> {
    let mut text = [0; 46];
    make::<Aes128>(MANUFACTURER.as_bytes(), &KEY, hardware, &mut text).map_err(NotMade::Call)?;
    let shown = String::from_utf8_lossy(rt.alloc(), &text)?;
    let [first, .., last] = hardware.0;
    println!(rt; "   hardware ID      {first:02X}............................{last:02X}")?;
    println!(rt; "   user permit      {shown}")?;
    Ok(text)
}

fn made(rt: &HostRuntime) -> Result<[u8; 46], Failure> {
    let version = Aes128::version();
    let version = from_utf8(&version).unwrap();
    println!(rt; "1. A manufacturer makes user permits for two of its chart systems.")?;
    println!(rt; "   cipher           AES-128, version {version}")?;
    println!(rt; "   manufacturer ID  {MANUFACTURER}")?;
    let text = system(rt, &SHIP)?;
    println!(rt; "                    |-- hardware ID, enciphered ---||-CRC--||-ID-|")?;
    let _ = system(rt, &OTHER_SHIP)?;
    Ok(text)
}

fn accepted(rt: &HostRuntime, text: &[u8]) -> Result<UserPermit, Failure> {
    let permit = check(text)?;
    println!(rt)?;
    println!(rt; "2. The permit issuer checks the first, which came with an order.")?;
    println!(rt; "   46 characters, each in its set, and the checksum agrees: accepted")?;
    Ok(permit)
}

// Two words: an impl of Display would be longer than this.
fn yes_or_no(answer: bool) -> &'static str {
    if answer { "yes" } else { "no" }
}

fn compared(rt: &HostRuntime, permit: &UserPermit) -> io::Result<()> {
    let mut working = [255; 16];
    let own = yes_or_no(permit.is_for::<Aes128>(&KEY, &SHIP, &mut working));
    let other = yes_or_no(permit.is_for::<Aes128>(&KEY, &OTHER_SHIP, &mut working));
    let wiped = yes_or_no(working == [0; 16]);
    println!(rt)?;
    println!(rt;
        "3. The manufacturer key recovers the hardware ID, which is compared and never shown."
    )?;
    println!(rt; "   is it that chart system's?                 {own}")?;
    println!(rt; "   is it another chart system's?              {other}")?;
    println!(rt; "   is the working buffer sixteen zeros now?   {wiped}")
}

fn refused(rt: &HostRuntime, permit: &UserPermit) -> Result<(), Failure> {
    let text = String::from_utf8_lossy(rt.alloc(), &mistyped::mistype(permit))?;
    let refusal = mistyped::refusal(permit);
    let number = refusal.number();
    println!(rt)?;
    println!(rt; "4. The same user permit comes again, with its sixth character mistyped.")?;
    println!(rt; "   user permit      {text}")?;
    println!(rt; "   refused by {number}     {refusal}")?;
    Ok(())
}

fn not_made(rt: &HostRuntime) -> io::Result<()> {
    let mut text = [b'-'; 46];
    println!(rt)?;
    println!(rt; "5. No user permit is made for a manufacturer ID that breaks its rule.")?;
    println!(rt; "   manufacturer ID  {UNLAWFUL}")?;
    if let Err(refusal) = make::<Aes128>(UNLAWFUL.as_bytes(), &KEY, &SHIP, &mut text) {
        let number = refusal.number();
        println!(rt; "   refused by {number}     {refusal}")?;
    }
    let untouched = yes_or_no(text == [b'-'; 46]);
    println!(rt; "   is the output as it was?                   {untouched}")
}

pub(crate) fn tell(rt: &HostRuntime) -> Result<(), Failure> {
    println!(rt; "A user permit, from its making to its refusal")?;
    println!(rt)?;
    let text = made(rt)?;
    let permit = accepted(rt, &text)?;
    compared(rt, &permit)?;
    refused(rt, &permit)?;
    not_made(rt)?;
    Ok(())
}
