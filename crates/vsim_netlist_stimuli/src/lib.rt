//! The stimuli of a design: the changes of its inputs, read from a VCD or from lines.
#![tactic(auto)]

mod changes;
mod header;
mod lines;
mod scopes;
mod times;
mod values;
mod vcd;
mod words;

pub use changes::Input;
pub use times::{LATEST, read_time};
pub use vcd::read_stimuli;
