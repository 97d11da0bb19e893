//! The execution of one process.
#![tactic(auto)]

mod done;
mod idle;
mod job;

pub use done::{Done, Results};
pub use job::Job;
pub use sim_exec_code::{Code, Codes, Frame, SingleAssignment};
pub use sim_exec_statements::{NetView, Nets, execute};
