//! The syntax tree of a text, and the tokens that spell it.
#![tactic(auto)]

pub mod declaration;
pub mod expression;
pub mod file;
pub mod laws;
pub mod list;
pub mod name;
pub mod sequential;
pub mod time;
pub mod unit;
pub mod waveform;

pub use file::DesignFile;
