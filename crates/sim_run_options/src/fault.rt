//! Why the words of a command line give no options.
ghost use Rattle.sim_run_options.specs.Asks.{Tells};
ghost use Rattle.clap.specs.Words.{kind_of};

use clap::error::ErrorKind;
use std::alloc::Global;
use thiserror::Error;

/// Why the words of a command line give no options.
#[derive(Debug, Drop, Error)]
pub enum CliFault {
    /// They ask for help. This is its text: some 40 lines, each ended by a line feed.
    #[error("{0}")]
    Help(String),
    /// They are refused. This is the reason: some lines, each ended by a line feed.
    #[error("{0}")]
    Refused(String),
    /// Memory ran out.
    #[error("Memory")]
    Memory,
}

/// The fault that the program makes of an error of the parser.
pub(crate) fn fault_of_error(alloc: Global, error: clap::Error) -> CliFault
    ensures { Tells (kind_of error) result }
{
    let kind = error.kind();
    let Ok(text) = error.to_string(alloc) else {
        return CliFault::Memory;
    };
    match kind {
        ErrorKind::DisplayHelp => CliFault::Help(text),
        ErrorKind::OutOfMemory => CliFault::Memory,
        _ => CliFault::Refused(text),
    }
}
