// What is printed for a line: its number, a tab and its verdict.
ghost use Rattle.std.specs.Prelude.{◌≡◌};
ghost use Rattle.check_user_permits.specs.Verdict.{verdict as verdict_of, row as row_of};

use lines::report::Row;
use octets::refusal::Refusal;
use std::alloc::{AllocError, Global};
use user_permit::check::check;

// The number of a line's refusal, and 0 where the line is a user permit, as they are printed.
pub fn verdict(line: &[u8]) -> u8
    ensures { result ≡ verdict_of line.now }
{
    check(line).err().map_or(0, |refusal| refusal.number())
}

pub struct Verdicts;

impl Row for Verdicts {
    ghost row = { row_of };

    fn make(heap: Global, number: u64, line: &[u8]) -> Result<String, AllocError> {
        let verdict = verdict(line);
        format!(in heap; "{number}\t{verdict}\n")
    }
}
