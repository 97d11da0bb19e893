//! What the command line asks for, and what is said where it is refused.
#![tactic(auto)]

mod command_line;
mod help;
mod ranges;
mod request;

pub use command_line::{Asked, read_command_line};
pub use ranges::write_ranges;
pub use request::Request;
