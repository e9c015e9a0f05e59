// Writing a whole result into a lent output, or nothing of it.
ghost use Rattle.std.specs.Prelude.{◌≡◌, length, Some};
ghost use Rattle.octets.specs.Output.{Writes, room, fitted, short_number, short_words};

use crate::refusal::Refusal;
use std::fmt;

// The output has fewer places than the result has bytes. A type of its own, which is what a `?` goes by.
#[derive(Clone, Copy, Debug, PartialEq, Eq)]
pub struct TooShort;

impl Refusal for TooShort {
    ghost numbered = { short_number };

    fn number(&self) -> u8 {
        11
    }
}

impl fmt::Display for TooShort {
    ghost output = { λ t. Some (short_words t) };

    fn fmt<W: fmt::Write>(&self, f: &mut fmt::Formatter<W>) -> fmt::Result {
        f.pad("the output is too short for the whole result")
    }
}

// Whether an output has room for a result.
pub fn room_for(count: usize, out: &[u8]) -> Result<(), TooShort>
    ensures { result ≡ room count (length out.now) }
{
    if out.len() < count {
        return Err(TooShort);
    }
    Ok(())
}

// Puts `bytes` at the front of `out`. What lies behind them keeps its content, and a refusal changes nothing.
pub fn write(bytes: &[u8], out: &mut [u8]) -> Result<usize, TooShort>
    ensures { Writes (fitted bytes.now (length out.old)) result out.old out.new }
{
    let count = bytes.len();
    room_for(count, out)?;
    out[0..count].copy_from_slice(bytes);
    Ok(count)
}
