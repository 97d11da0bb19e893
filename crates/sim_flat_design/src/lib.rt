//! The flat design that elaboration produces: nets, drivers, and processes with bodies in the form
//! that is executed.
#![tactic(auto)]

pub mod body;
pub mod design;
pub mod expression;
pub mod held;
pub mod instance_path;
pub mod limits;
mod pieces;
pub mod process;
pub mod statement;
pub mod waveform;

pub use body::Body;
pub use design::{Design, DriverOf, Net, Source};
pub use held::Held;
pub use instance_path::{InstancePath, PathPiece};
pub use limits::Limits;
pub use process::Process;
