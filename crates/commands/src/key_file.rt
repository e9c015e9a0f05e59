// Files of 32 hexadecimal digits, with or without a line feed behind them.
ghost use Rattle.std.specs.Prelude.{◌≡◌, Some};
ghost use Rattle.commands.specs.KeyFile.{ReadsKey, unended, key_file_number, key_file_words};
ghost use Rattle.commands.specs.KeyFileOr.{key_file_or_number, key_file_or_words};
ghost use Rattle.commands.specs.declared.key_file.KeyFileOr.TheVariants.{KeyFile};

use fields::fault::FieldFault;
use octets::block::Block;
use octets::hex;
use octets::refusal::Refusal;
use std::fmt;

// The bytes of the longest key file.
pub const LIMIT: u32 = 33;

// The file holds something else. A type of its own, which is what a `?` goes by.
#[derive(Clone, Copy, Debug, PartialEq, Eq)]
pub struct KeyFileFault;

impl Refusal for KeyFileFault {
    ghost numbered = { key_file_number };

    fn number(&self) -> u8 {
        FieldFault.number()
    }
}

impl fmt::Display for KeyFileFault {
    ghost output = { λ f. Some (key_file_words f) };

    fn fmt<W: fmt::Write>(&self, f: &mut fmt::Formatter<W>) -> fmt::Result {
        f.pad("a key file holds 32 hexadecimal digits, 0 to 9 and A to F")
    }
}

// A call that takes its key from a file is refused for that file, or as the call itself is refused.
#[derive(Clone, Copy, Debug, PartialEq, Eq)]
pub enum KeyFileOr<R> {
    KeyFile(KeyFileFault),
    Call(R),
}

impl<R: Refusal> Refusal for KeyFileOr<R> {
    ghost numbered = { key_file_or_number R.Refusal.numbered };

    fn number(&self) -> u8 {
        match self {
            KeyFileOr::KeyFile(fault) => fault.number(),
            KeyFileOr::Call(refusal) => refusal.number(),
        }
    }
}

impl<R: Refusal> fmt::Display for KeyFileOr<R> {
    ghost output = { key_file_or_words R.Display.output };

    fn fmt<W: fmt::Write>(&self, f: &mut fmt::Formatter<W>) -> fmt::Result {
        match self {
            KeyFileOr::KeyFile(fault) => write!(f, "{fault}"),
            KeyFileOr::Call(refusal) => write!(f, "{refusal}"),
        }
    }
}

// The conversion of a call's own refusal stands beside the call: one from every `R` would overlap this one.
impl<R> From<KeyFileFault> for KeyFileOr<R> {
    ghost from_gives = { λ fault r. r ≡ KeyFile fault };

    fn from(fault: KeyFileFault) -> KeyFileOr<R> {
        KeyFileOr::KeyFile(fault)
    }
}

fn without_line_feed(text: &[u8]) -> &[u8]
    ensures { result.now ≡ unended text.now }
{
    text.strip_suffix(b"\n").unwrap_or(text)
}

// By name, as every text is read: at a call that says more than a conversion.
#[tactic(auto, using(crate::proofs::Keys::reads))]
pub fn read(text: &[u8]) -> Result<Block, KeyFileFault>
    ensures { ReadsKey text.now result }
{
    hex::decode(without_line_feed(text)).ok_or(KeyFileFault)
}
