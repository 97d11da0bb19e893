//! Words of a command line that `vsim_waves` and `vsim_compare` share: times, and lists of names.
#![tactic(auto)]

mod patterns;
mod times;

pub use patterns::is_selected;
pub use times::{read_number, read_time};
