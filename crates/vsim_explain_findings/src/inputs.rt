//! Inputs of the top that nothing drives.

use crate::units::entity_named;
use sim_text_tree::DesignFile;
use sim_text_tree::declaration::{Mode, PortDeclaration};
use sim_text_tree::name::Name;

/// Whether the ports of a declaration are inputs without a first value.
fn is_undriven(ports: &PortDeclaration) -> bool {
    let is_input = match ports.mode {
        None | Some(Mode::In) => true,
        Some(_) => false,
    };
    is_input && ports.initial.is_none()
}

/// The first input of the top without a first value.
pub fn find_undriven<'a>(file: &'a DesignFile, top: &str) -> Option<&'a Name> {
    let entity = entity_named(file, top)?;
    for ports in entity.ports.as_slice() {
        if is_undriven(ports) {
            return ports.names.as_slice().first();
        }
    }
    None
}
