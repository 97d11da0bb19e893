//! Explanations of the refusals of a text, in plain words.
#![tactic(auto)]

mod design_faults;
mod explanation;
mod hints;
mod left_out;
mod missing;
mod slips;
mod text_faults;

pub use design_faults::explain_design;
pub use explanation::{Explanation, nowhere};
pub use text_faults::explain_text;
