//! The faults of instances: in the component, entity or architecture, and in the port map.
#![tactic(auto)]

pub mod component;
pub mod instance;
pub mod interface;
pub mod laws;
pub mod library;
mod places;
pub mod port_map;

pub use component::Component;
pub use instance::check_instance;
pub use interface::Interface;
pub use library::Library;
pub use port_map::PortMap;
