// A field that breaks its rule. A type of its own, which is what a `?` goes by.
ghost use Rattle.std.specs.Prelude.{Some};
ghost use Rattle.fields.specs.Fault.{fault_number, fault_words};

use octets::refusal::Refusal;
use std::fmt;

#[derive(Clone, Copy, Debug, PartialEq, Eq)]
pub struct FieldFault;

impl Refusal for FieldFault {
    ghost numbered = { fault_number };

    fn number(&self) -> u8 {
        4
    }
}

impl fmt::Display for FieldFault {
    ghost output = { λ f. Some (fault_words f) };

    fn fmt<W: fmt::Write>(&self, f: &mut fmt::Formatter<W>) -> fmt::Result {
        f.pad("a field breaks its rule")
    }
}
