//! Compiled process bodies: flat lists of steps on one list of values, the frame.
#![tactic(auto)]

mod assembly;
mod backward;
mod code;
mod codes;
mod edges;
mod execution;
mod expressions;
mod fingerprint;
mod frame;
mod gathering;
mod guards;
pub mod laws;
mod lowering;
mod needs;
mod operation;
mod operators;
mod packed;
mod packing;
mod program;
mod programs;
mod quick;
mod rising;
mod running;
mod sharing;
mod statements;
mod step;

pub use code::Code;
pub use codes::Codes;
pub use frame::Frame;
pub use quick::SingleAssignment;
