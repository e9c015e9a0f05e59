// How a command can fail: one line for standard error, or how the program is called.
use commands::call::USAGE;
use commands::make::NotMade;
use commands::refused::Refused;
use std::alloc::AllocError;
use std::io;
use thiserror::Error;
use user_permit::check::CheckRefusal;

#[derive(Debug, Drop, Error)]
pub enum Failure {
    #[error("{}", Refused(.0))]
    NotMade(#[from] NotMade),
    #[error("{}", Refused(.0))]
    Refused(#[from] CheckRefusal),
    #[error("{USAGE}")]
    Usage,
    #[error("cannot read {0}: {1}")]
    Unreadable(String, io::Error),
    #[error(transparent)]
    Io(#[from] io::Error),
}

// Memory that runs out is told as an `io::Error` has it; `#[from]` would make a case of its own.
impl From<AllocError> for Failure {
    fn from(error: AllocError) -> Failure {
        Failure::Io(error.into())
    }
}
