// What ends the job early.
use std::io;
use words::faults::Fault;

// Something is refused, or a line is not printed.
#[derive(Drop)]
pub(crate) enum Stop {
    Refused(&'static str, Fault),
    Unprinted(io::Error),
}

impl Stop {
    pub(crate) fn refused(what: &'static str, fault: impl Into<Fault>) -> Stop {
        Stop::Refused(what, fault.into())
    }
}

impl From<io::Error> for Stop {
    fn from(error: io::Error) -> Stop {
        Stop::Unprinted(error)
    }
}
