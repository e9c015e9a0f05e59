// What a refusal is, in every call: an answer with a number, and with words for a person. The number is what programs
// print and C is answered; code matches on the type. Each refusal is a type of its own, so that `?` says which it was, and
// its words and conversions are written out, since those of a derive have no contract.
ghost use Rattle.std.specs.Prelude.{◌≡◌, ℕ};

use std::fmt::Display;

pub trait Refusal: Display {
    ghost numbered: { Self → ℕ };

    fn number(&self) -> u8
        ensures { result ≡ numbered self.now };
}
