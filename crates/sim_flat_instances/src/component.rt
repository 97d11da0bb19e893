//! The components of an architecture (IEEE 1076-2008, 6.8).

ghost use Rattle.std.specs.Prelude.{◌≡◌, ◌++◌, IfOk, OnOk};
ghost use Rattle.sim_flat_instances.specs.Libraries.{interface_of};
ghost use Rattle.sim_flat_instances.specs.Components as spec;

use crate::interface::Interface;
use crate::library::Library;
use sim_text_tree::declaration::Declaration;
use sim_text_tree::name::Name;
use std::alloc::{AllocError, Global};

/// A component of an architecture. Its instances are bound to the entity with its name (7.3.3).
#[derive(Clone, Copy)]
pub struct Component {
    /// Whether the entity exists and has the same ports, by name, mode and type mark.
    pub is_like_entity: bool,
}

/// Whether the entity with this name exists and has the same ports.
fn is_like_entity(library: &Library<'_>, name: &Name, ports: &Interface<'_>) -> bool
    ensures { result ≡ spec.are_like_those ports.now (interface_of library.now name.now.text) }
{
    match library.interface(name.text()) {
        None => false,
        Some(entity) => ports.is_like(entity),
    }
}

/// Appends a component.
#[tactic(auto, unfolding(crate::specs::Components::components_in))]
fn push_component(
    alloc: Global,
    library: &Library<'_>,
    components: &mut Vec<Component>,
    declaration: &Declaration,
) -> Result<(), AllocError>
    ensures { OnOk result (components.new.items ≡ components.old.items ++ spec.components_in library.now declaration.now) }
{
    match declaration {
        Declaration::Signal(_) => Ok(()),
        Declaration::Component(component) => {
            let ports = Interface::of(alloc, component.ports.as_slice())?;
            let is_like_entity = is_like_entity(library, &component.name, &ports);
            components.push(Component { is_like_entity })?;
            Ok(())
        }
    }
}

/// The components of an architecture with these declarations, by position. Each is compared with
/// its entity once, however many instances it has.
#[tactic(auto, unfolding(crate::specs::Components::components))]
pub fn components(
    alloc: Global,
    library: &Library<'_>,
    declarations: &[Declaration],
) -> Result<Vec<Component>, AllocError>
    ensures { IfOk result (λ components. components.items ≡ spec.components library.now declarations.now) }
{
    let mut components = Vec::new(alloc);
    for declaration in declarations {
        push_component(alloc, library, &mut components, declaration)?;
    }
    Ok(components)
}
