// The line of a refused command: `refused`, a tab, the number of the refusal, a tab and its words.
ghost use Rattle.std.specs.Option.{option_map};
ghost use Rattle.commands.specs.Refused.{refused_line};

use octets::refusal::Refusal;
use std::fmt;

#[derive(Drop)]
pub struct Refused<'a, R>(pub &'a R);

impl<R: Refusal> fmt::Display for Refused<'_, R> {
    ghost output = { λ x. option_map (refused_line (R.Refusal.numbered x.0.now)) (R.Display.output x.0.now) };

    fn fmt<W: fmt::Write>(&self, f: &mut fmt::Formatter<W>) -> fmt::Result {
        let refusal = self.0;
        let number = refusal.number();
        write!(f, "refused\t{number}\t{refusal}")
    }
}
