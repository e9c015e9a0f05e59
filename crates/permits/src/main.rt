// The product. With no argument it tells one whole story on built-in samples and prints an account of it.
#![tactic(auto)]

mod failure;
mod make;
mod mistyped;
mod samples;
mod story;

use commands::call;
use commands::call::Command;
use failure::Failure;
use std::env;
use std::process::ExitCode;

fn run(rt: &HostRuntime) -> Result<(), Failure> {
    let words = env::args(rt)?.collect::<Vec<String>>(rt.alloc())?;
    match call::parse(words.as_slice()).ok_or(Failure::Usage)? {
        Command::Story => story::tell(rt),
        Command::Help => Ok(rt.println(call::USAGE)?),
        Command::Make(making) => make::run(rt, &making),
    }
}

fn main(rt: HostRuntime) -> ExitCode {
    match run(&rt) {
        Ok(()) => ExitCode::SUCCESS,
        Err(failure) => {
            let _ = eprintln!(rt; "{failure}");
            ExitCode::FAILURE
        }
    }
}
