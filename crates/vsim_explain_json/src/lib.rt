//! Refusals and warnings as tools read them: each an object of JSON in a line of its own.
#![tactic(auto)]

mod report;

pub use report::{Kind, Report, write_refusal};
