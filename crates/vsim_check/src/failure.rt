//! Why the program fails, and the exit status that says so.

use std::alloc::AllocError;
use std::io;
use vsim_netlist_design::Fault;

/// The exit status if an input is refused.
const REFUSED: u8 = 2;

/// The exit status if memory is refused, or if reading or writing fails.
const FAILED: u8 = 4;

/// Why the program fails.
#[derive(Drop)]
pub(crate) enum Failure {
    /// An input is refused.
    Input(Fault),
    /// Reading or writing fails, or what was read is no text. This is the exit status for it.
    Streams(anyhow::Error, u8),
}

/// A fault of reading or writing, with what was read or written.
fn with_name(fault: io::Error, what: &str) -> anyhow::Error {
    anyhow::Error::from(fault).context(format_args!("{what}"))
}

impl Failure {
    /// A failure of reading or writing, with what was read or written.
    pub(crate) fn of_streams(fault: io::Error, what: &str) -> Failure {
        Failure::Streams(with_name(fault, what), FAILED)
    }

    /// A failure of reading a text. One that is not UTF-8 is refused.
    pub(crate) fn of_reading(fault: io::Error, what: &str) -> Failure {
        let status = match fault.kind() {
            io::ErrorKind::InvalidData => REFUSED,
            _ => FAILED,
        };
        Failure::Streams(with_name(fault, what), status)
    }

    /// A lack of memory.
    pub(crate) fn of_memory() -> Failure {
        Failure::Input(Fault::Memory)
    }

    /// The exit status.
    pub(crate) fn status(&self) -> u8 {
        match self {
            Failure::Input(Fault::Refused(_)) => REFUSED,
            Failure::Input(Fault::Memory) => FAILED,
            Failure::Streams(_, status) => *status,
        }
    }
}

impl From<AllocError> for Failure {
    fn from(_lack: AllocError) -> Failure {
        Failure::of_memory()
    }
}
