// Sets of characters, and texts that keep to one. A set is a type, so that a contract can name it.
ghost use Rattle.std.specs.Prelude.{◌≡◌, ℕ, Bool};
ghost use Rattle.octets.specs.Bytes.{every};

pub trait Charset {
    ghost member: { ℕ → Bool };

    fn contains(c: u8) -> bool
        ensures { result ≡ member c };
}

pub fn keeps_to<S: Charset>(text: &[u8]) -> bool
    ensures { result ≡ every S.member text.now }
{
    text.iter().all(|c| S::contains(*c))
}
