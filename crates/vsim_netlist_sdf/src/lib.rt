//! Reads the delays and checks of files in the standard delay format.
#![tactic(auto)]

mod checks;
mod file;
mod paths;
mod reader;
mod values;

pub use file::{read_check_file, read_delay_file};
pub use reader::Corner;
