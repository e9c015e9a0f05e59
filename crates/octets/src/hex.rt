// Upper-case hexadecimal text. What is written goes by places: of a slice or an array that was written through
// `as_chunks_mut`, or through an adapter of `iter_mut`, no contract says what it holds.
ghost use Rattle.std.specs.Prelude.{◌≡◌, ◌/◌, ◌%◌, ◌<◌, [], ◌∷◌, length};
ghost use Rattle.octets.specs.Hex.{digit as digit_of, hex as hex_of, Valued, Paired, Decoded};
ghost use Rattle.octets.specs.Output.{Writes, fitted};

use crate::output::TooShort;

fn digit(n: u8) -> u8
    requires { n < 16 }
    ensures { result ≡ digit_of n }
{
    if n < 10 { b'0' + n } else { b'A' + (n - 10) }
}

// The two digits of a byte, the higher first.
pub fn digits(byte: u8) -> [u8; 2]
    ensures { result ≡ digit_of (byte / 16) ∷ digit_of (byte % 16) ∷ [] }
{
    [digit(byte / 16), digit(byte % 16)]
}

// The value of a digit.
pub fn value(c: u8) -> Option<u8>
    ensures { Valued c result }
{
    match c {
        b'0'..=b'9' => Some(c - b'0'),
        b'A'..=b'F' => Some(c - b'A' + 10),
        _ => None,
    }
}

// The byte of two digits.
fn pair(high: u8, low: u8) -> Option<u8>
    ensures { Paired high low result }
{
    Some(value(high)? * 16 + value(low)?)
}

// Puts the digits of `bytes` at the front of `out`.
pub fn encode(bytes: &[u8], out: &mut [u8]) -> Result<usize, TooShort>
    ensures { Writes (fitted (hex_of bytes.now) (length out.old)) result out.old out.new }
{
    if out.len() / 2 < bytes.len() {
        return Err(TooShort);
    }
    for (i, byte) in bytes.iter().enumerate() {
        // one write each: a copy of both for every byte takes several times as long
        let [high, low] = digits(*byte);
        out[2 * i] = high;
        out[2 * i + 1] = low;
    }
    Ok(2 * bytes.len())
}

// The bytes that a text of two digits for each stands for.
pub fn decode<const N: usize>(text: &[u8]) -> Option<[u8; N]>
    ensures { Decoded N text.now result }
{
    let (pairs, []) = text.as_chunks::<2>() else {
        return None;
    };
    if pairs.len() != N {
        return None;
    }
    let mut bytes = [0; N];
    for (i, [high, low]) in pairs.iter().enumerate() {
        bytes[i] = pair(*high, *low)?;
    }
    Some(bytes)
}
