// A report: a row for each line of the input.
ghost use Rattle.std.specs.Prelude.{◌≡◌, ℕ, List, IfOk, string_bytes};
ghost use Rattle.lines.specs.Report.{report_of};

use crate::cut::Lines;
use std::alloc::{AllocError, Global};

// What a program answers to a line: a trait and no closure, since the contract of a report names the row.
pub trait Row {
    // of the line's number, which counts from 1, and of the line: its row, with what ends it
    ghost row: { ℕ → List ℕ → List ℕ };

    fn make(heap: Global, number: u64, line: &[u8]) -> Result<String, AllocError>
        ensures { IfOk result (λ s. string_bytes s ≡ row number line.now) };
}

#[tactic(auto, using(crate::proofs::Cutting::lines_short), unfolding(crate::specs::Report::rows))]
pub fn report<R: Row>(heap: Global, input: &[u8]) -> Result<String, AllocError>
    ensures { IfOk result (λ s. string_bytes s ≡ report_of R.Row.row input.now) }
{
    let mut text = String::new(heap);
    for (line, number) in Lines::of(input).zip(1..) {
        text.push_str(R::make(heap, number, line)?.as_str())?;
    }
    Ok(text)
}
