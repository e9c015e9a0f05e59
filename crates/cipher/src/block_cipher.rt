// What a block cipher is to every layer above it: for each key two maps of blocks to blocks that undo each other.
ghost use Rattle.std.specs.Prelude.{◌≡◌, ℕ, true, List};
ghost use Rattle.octets.specs.Bytes.{Bytes};
ghost use Rattle.cipher.specs.Version.{is_version};

use octets::block::Block;

// A value is keyed at its making, so that a long dataset expands its key once.
pub trait BlockCipher {
    // E and D: key, block
    ghost enc: { List ℕ → List ℕ → List ℕ };

    ghost dec: { List ℕ → List ℕ → List ℕ };

    // the key that a value was made for
    ghost held: { Self → List ℕ };

    // the version
    ghost label: { List ℕ };

    fn version() -> [u8; 5]
        ensures { result ≡ label };

    fn new(key: &Block) -> Self
        ensures { held result ≡ key.now };

    fn encipher(&self, block: Block) -> Block
        ensures { result ≡ enc (held self.now) block };

    fn decipher(&self, block: Block) -> Block
        ensures { result ≡ dec (held self.now) block };

    ghost deciphered: { (k b : List ℕ) → Bytes 16 k → Bytes 16 b → dec k (enc k b) ≡ b };

    ghost enciphered: { (k b : List ℕ) → Bytes 16 k → Bytes 16 b → enc k (dec k b) ≡ b };

    ghost enc_sixteen: { (k b : List ℕ) → Bytes 16 k → Bytes 16 b → Bytes 16 (enc k b) };

    ghost dec_sixteen: { (k b : List ℕ) → Bytes 16 k → Bytes 16 b → Bytes 16 (dec k b) };

    ghost labelled: { is_version label ≡ true };
}
