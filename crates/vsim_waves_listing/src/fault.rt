//! Why a stream is not read to its end.

use std::alloc::AllocError;
use std::io;

/// Reading fails, also for lack of memory, or what is read is refused, for a reason in words.
#[derive(Debug, Drop)]
pub enum Fault {
    Stream(io::Error),
    Refused(&'static str),
}

impl From<io::Error> for Fault {
    fn from(fault: io::Error) -> Fault {
        Fault::Stream(fault)
    }
}

impl From<AllocError> for Fault {
    fn from(fault: AllocError) -> Fault {
        Fault::Stream(io::Error::from(fault))
    }
}
