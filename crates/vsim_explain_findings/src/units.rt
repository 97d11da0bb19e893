//! The units of a text.

use sim_text_tree::DesignFile;
use sim_text_tree::unit::{Architecture, Entity, LibraryUnit};

/// The architecture that a unit is.
pub fn architecture_of(unit: &LibraryUnit) -> Option<&Architecture> {
    match unit {
        LibraryUnit::Architecture(architecture) => Some(architecture),
        LibraryUnit::Entity(_) => None,
    }
}

/// The entity with a name, in any case.
pub fn entity_named<'a>(file: &'a DesignFile, name: &str) -> Option<&'a Entity> {
    for unit in file.units() {
        if let LibraryUnit::Entity(entity) = &unit.library_unit {
            if entity.name.as_str().eq_ignore_ascii_case(name) {
                return Some(entity);
            }
        }
    }
    None
}

/// The last architecture of the entity with a name, in any case.
pub fn last_architecture<'a>(file: &'a DesignFile, name: &str) -> Option<&'a Architecture> {
    let mut found = None;
    for unit in file.units() {
        if let LibraryUnit::Architecture(architecture) = &unit.library_unit {
            if architecture.entity.as_str().eq_ignore_ascii_case(name) {
                found = Some(architecture);
            }
        }
    }
    found
}
