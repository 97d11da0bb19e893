//! Definitions of how expressions, waveforms, declarations, statements, design units and files are
//! read from tokens, and their laws: a file is read from exactly the tokens that spell it, so the
//! same tokens do not spell two files.
#![tactic(auto)]

pub mod error;
pub mod laws;

pub use error::ParseError;
