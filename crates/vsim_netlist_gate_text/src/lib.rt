//! Gates and registers as statements.
#![tactic(auto)]

mod builder;
mod ladders;
mod processes;
mod timed;

pub use builder::put_cells;
