//! The meanings of names: declarative regions and scopes (IEEE 1076-2008, 12), the faults of
//! declarations, and which of several faults is reported.
#![tactic(auto)]

pub mod check;
pub mod entity;
pub mod fault;
pub mod names;
pub mod port;
pub mod predefined;
pub mod region;
pub mod scope;
pub mod value;

pub use entity::EntityPorts;
pub use fault::{Fault, Kind};
pub use names::Names;
pub use port::Port;
pub use scope::{DeclarativeRegion, Declare, Meaning, Scope, Type};
