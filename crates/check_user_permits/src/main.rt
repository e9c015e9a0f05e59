// Checks each line of standard input as a user permit, and prints its number and the number of its refusal.
#![tactic(auto)]

mod verdict;

use lines::report::report;
use std::io;
use std::io::Read;
use verdict::Verdicts;

// Reading and writing stay with each program: a function for both would be as long, and put the runtime into the library.
fn main(rt: HostRuntime) -> io::Result<()> {
    let mut input = Vec::new(rt.alloc());
    rt.stdin().read_to_end(&mut input)?;
    let text = report::<Verdicts>(rt.alloc(), input.as_slice())?;
    rt.write_all(text.as_bytes())
}
