//! The options that the words of the command line give.
#![tactic(auto)]

mod command;
mod fault;
pub mod laws;
mod limits;
mod options;
mod reading;

pub use fault::CliFault;
pub use limits::Limits;
pub use options::Options;
pub use reading::{Request, read_options, read_request};
