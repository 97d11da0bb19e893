//! Why the program fails, and the exit status that says so.

use std::alloc::AllocError;
use std::io;
use vsim_waves_listing::Fault;

/// The exit status if an input is refused.
const REFUSED: u8 = 3;

/// The exit status if memory is refused, or if reading or writing fails.
const FAILED: u8 = 4;

/// Why the program fails.
#[derive(Drop)]
pub enum Failure {
    /// An input, or what is asked of it, is refused.
    Refused(anyhow::Error),
    /// Memory is refused, or reading or writing fails.
    Streams(anyhow::Error),
}

impl Failure {
    /// A failure of reading or writing, with what was read or written.
    pub fn of_stream(fault: io::Error, what: &str) -> Failure {
        Failure::Streams(anyhow::Error::from(fault).context(format_args!("{what}")))
    }

    /// A fault of an input, at a line.
    pub fn of_input(fault: Fault, path: &str, line: usize) -> Failure {
        match fault {
            Fault::Stream(fault) => Failure::of_stream(fault, path),
            Fault::Refused(text) if line == 0 => Failure::of_whole(text, path),
            Fault::Refused(text) => {
                let error = anyhow::Error::msg(text).context(format_args!("line {line}"));
                Failure::Refused(error.context(format_args!("{path}")))
            }
        }
    }

    /// A fault of an input as a whole.
    pub fn of_whole(text: &str, path: &str) -> Failure {
        Failure::Refused(anyhow::Error::msg(text).context(format_args!("{path}")))
    }

    /// The exit status, and what is to be said.
    pub fn parts(&self) -> (u8, &anyhow::Error) {
        match self {
            Failure::Refused(error) => (REFUSED, error),
            Failure::Streams(error) => (FAILED, error),
        }
    }
}

impl From<AllocError> for Failure {
    fn from(fault: AllocError) -> Failure {
        Failure::Streams(anyhow::Error::from(fault))
    }
}
