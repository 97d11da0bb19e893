//! Reads the cells of Liberty files: pins with their functions, registers and latches.
#![tactic(auto)]

mod functions;
mod libraries;
mod marks;
mod models;
mod pins;
mod tables;

pub use libraries::read_library;
