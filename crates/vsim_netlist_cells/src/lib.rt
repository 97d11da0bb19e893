//! The netlists that Yosys writes by `write_json`, read for a simulation of their gates.
#![tactic(auto)]

mod document;
mod kinds;
mod late_inputs;
mod library_cells;
mod logic;
mod modules;
mod names;
mod object;
mod pins;
mod reading;
mod registers;
mod timings;

pub use modules::read_netlist;
pub use pins::{Connections, Instance, Pin, read_connections};
