//! The blocks of a design file: each architecture with its entity, translated once for all of its
//! instances, with names as positions.
#![tactic(auto)]

pub mod block_process;
mod block_processes;
pub mod count;
mod instances;
pub mod links;
mod lists;
mod names;
mod objects;
pub mod parts;
mod plan;
pub mod reads;
pub mod rising;
pub mod variables;

pub use links::{Link, Links};
pub use parts::{Block, BlockProcess, Instance, Object, Port, Ports};
pub use plan::blocks;
