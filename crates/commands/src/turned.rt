// The line of a command that turned one file into another.
ghost use Rattle.std.specs.Prelude.{Some};
ghost use Rattle.commands.specs.Turned.{turned_line};

use std::fmt;

// Two cases with the same counts: a kind beside the counts would be one type more.
#[derive(Clone, Copy, Debug)]
pub enum Turned {
    Sealed { taken: usize, given: usize },
    Opened { taken: usize, given: usize },
}

impl fmt::Display for Turned {
    ghost output = { λ t. Some (turned_line t) };

    fn fmt<W: fmt::Write>(&self, f: &mut fmt::Formatter<W>) -> fmt::Result {
        match *self {
            Turned::Sealed { taken, given } => write!(
                f,
                "sealed: {taken} bytes in, {given} bytes out"
            ),
            Turned::Opened { taken, given } => write!(
                f,
                "opened: {taken} bytes in, {given} bytes out"
            ),
        }
    }
}
