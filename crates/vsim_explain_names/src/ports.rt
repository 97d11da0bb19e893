//! The port of an instance that has no actual, and the formal that names no port.

use crate::nearest::nearest;
use sim_text_tree::DesignFile;
use sim_text_tree::declaration::{Mode, PortDeclaration};
use sim_text_tree::name::Name;
use sim_text_tree::unit::{
    Actual, Association, Concurrent, Entity, Instance, Instantiated, LibraryUnit,
};
use std::alloc::{AllocError, Global};
use std::io::{self, Write};

/// The name of the component or entity of an instance.
fn unit_name(instance: &Instance) -> &Name {
    match &instance.unit {
        Instantiated::Component { component, .. } => component,
        Instantiated::Entity { entity, .. } => entity,
    }
}

/// The formal at a place, if a port map has one there.
fn formal_at(associations: &[Association], at: usize) -> Option<&Name> {
    for association in associations {
        if let Some(formal) = &association.formal {
            if formal.at() == at {
                return Some(formal);
            }
        }
    }
    None
}

/// Whether the label, the unit or a formal of an instance is at a place.
fn is_at(instance: &Instance, at: usize) -> bool {
    instance.label.at() == at
        || unit_name(instance).at() == at
        || formal_at(instance.associations.as_slice(), at).is_some()
}

/// The instance that has a place, among the statements of an architecture.
fn instance_among(statements: &[Concurrent], at: usize) -> Option<&Instance> {
    for statement in statements {
        if let Concurrent::Instance(instance) = statement {
            if is_at(instance, at) {
                return Some(instance);
            }
        }
    }
    None
}

/// The instance whose label, unit or formal is at a place.
fn instance_at(file: &DesignFile, at: usize) -> Option<&Instance> {
    for unit in file.units() {
        if let LibraryUnit::Architecture(architecture) = &unit.library_unit {
            let found = instance_among(architecture.statements.as_slice(), at);
            if found.is_some() {
                return found;
            }
        }
    }
    None
}

/// The entity with a name.
fn entity_named<'a>(file: &'a DesignFile, name: &str) -> Option<&'a Entity> {
    for unit in file.units() {
        if let LibraryUnit::Entity(entity) = &unit.library_unit {
            if entity.name.as_str() == name {
                return Some(entity);
            }
        }
    }
    None
}

/// The entity of an instance.
fn entity_of<'a>(file: &'a DesignFile, instance: &Instance) -> Option<&'a Entity> {
    entity_named(file, unit_name(instance).as_str())
}

/// Whether the label, the unit or a formal of an instance is at a place.
pub fn has_instance(file: &DesignFile, at: usize) -> bool {
    instance_at(file, at).is_some()
}

/// Whether the ports of a declaration need an actual.
fn is_wanted(ports: &PortDeclaration) -> bool {
    let is_in = match ports.mode {
        None | Some(Mode::In) => true,
        Some(_) => false,
    };
    is_in && ports.initial.is_none()
}

/// The names of ports, in order, and for each whether it needs an actual.
fn ports_of<'a>(alloc: Global, entity: &'a Entity) -> Result<Vec<(&'a str, bool)>, AllocError> {
    let mut found = Vec::new(alloc);
    for ports in entity.ports.as_slice() {
        let wanted = is_wanted(ports);
        for name in ports.names.as_slice() {
            if found.push((name.as_str(), wanted)).is_err() {
                return Err(AllocError);
            }
        }
    }
    Ok(found)
}

/// The names of ports, sorted.
fn sorted_names<'a>(alloc: Global, ports: &[(&'a str, bool)]) -> Result<Vec<&'a str>, AllocError> {
    let mut found = Vec::new(alloc);
    for (name, _) in ports {
        if found.push(*name).is_err() {
            return Err(AllocError);
        }
    }
    found.sort()?;
    Ok(found)
}

/// Whether an association has an actual.
fn is_connected(association: &Association) -> bool {
    match association.actual {
        Actual::Open { .. } => false,
        _ => true,
    }
}

/// The formals of a port map, sorted; those without an actual are left out if only others are
/// wanted.
fn sorted_formals<'a>(
    alloc: Global,
    associations: &'a [Association],
    only_connected: bool,
) -> Result<Vec<&'a str>, AllocError> {
    let mut found = Vec::new(alloc);
    for association in associations {
        if let Some(formal) = &association.formal {
            let is_out = only_connected && !is_connected(association);
            if !is_out && found.push(formal.as_str()).is_err() {
                return Err(AllocError);
            }
        }
    }
    found.sort()?;
    Ok(found)
}

/// Whether a name is one of these, which are sorted.
fn has(names: &[&str], name: &str) -> bool {
    names.binary_search_by(|it| (*it).cmp(name)).is_ok()
}

/// The positional association of the port at a position.
fn positional(associations: &[Association], place: usize) -> Option<&Association> {
    let association = associations.get(place)?;
    match association.formal {
        Some(_) => None,
        None => Some(association),
    }
}

/// The first port that needs an actual and has none.
fn missing<'a>(
    alloc: Global,
    ports: &[(&'a str, bool)],
    associations: &[Association],
) -> Result<Option<&'a str>, AllocError> {
    let formals = sorted_formals(alloc, associations, true)?;
    for (place, (name, wanted)) in ports.iter().enumerate() {
        let has_actual = match positional(associations, place) {
            Some(association) => is_connected(association),
            None => has(formals.as_slice(), name),
        };
        if *wanted && !has_actual {
            return Ok(Some(name));
        }
    }
    Ok(None)
}

/// The first formal that names none of these ports, whose names are sorted.
fn stranger_to<'a>(names: &[&str], associations: &'a [Association]) -> Option<&'a str> {
    for association in associations {
        if let Some(formal) = &association.formal {
            if !has(names, formal.as_str()) {
                return Some(formal.as_str());
            }
        }
    }
    None
}

/// The first formal that names no port.
fn stranger<'a>(
    alloc: Global,
    ports: &[(&str, bool)],
    associations: &'a [Association],
) -> Result<Option<&'a str>, AllocError> {
    let names = sorted_names(alloc, ports)?;
    Ok(stranger_to(names.as_slice(), associations))
}

/// The names of ports without an association.
fn free_ports<'a>(
    alloc: Global,
    ports: &[(&'a str, bool)],
    associations: &[Association],
) -> Result<Vec<&'a str>, AllocError> {
    let formals = sorted_formals(alloc, associations, false)?;
    let mut found = Vec::new(alloc);
    for (place, (name, _)) in ports.iter().enumerate() {
        let is_free = positional(associations, place).is_none() && !has(formals.as_slice(), name);
        if is_free && found.push(*name).is_err() {
            return Err(AllocError);
        }
    }
    Ok(found)
}

/// Writes that a name is no port, and the port that is free and has the nearest name.
fn write_stranger<W: Write>(
    alloc: Global,
    out: &mut W,
    ports: &[(&str, bool)],
    associations: &[Association],
    formal: &str,
) -> io::Result<()> {
    let names = free_ports(alloc, ports, associations)?;
    match nearest(alloc, formal, names.as_slice())? {
        Some(name) => writeln!(
            out,
            "No port is named {formal}; the nearest that is free is {name}."
        ),
        None => writeln!(out, "No port is named {formal}, and none is free."),
    }
}

/// Writes what a formal that names no port may have meant.
fn write_any_stranger<W: Write>(
    alloc: Global,
    out: &mut W,
    ports: &[(&str, bool)],
    associations: &[Association],
) -> io::Result<()> {
    match stranger(alloc, ports, associations)? {
        Some(formal) => write_stranger(alloc, out, ports, associations, formal),
        None => Ok(()),
    }
}

/// Writes the port that has no actual, and what a formal that names no port may have meant.
fn write_ports<W: Write>(
    alloc: Global,
    out: &mut W,
    entity: &Entity,
    associations: &[Association],
) -> io::Result<()> {
    let ports = ports_of(alloc, entity)?;
    let Some(name) = missing(alloc, ports.as_slice(), associations)? else {
        return Ok(());
    };
    let of = entity.name.as_str();
    writeln!(out, "The port without an actual is {name} of {of}.")?;
    write_any_stranger(alloc, out, ports.as_slice(), associations)
}

/// Writes that the text has no entity of a name.
fn write_no_entity<W: Write>(out: &mut W, name: &str) -> io::Result<()> {
    writeln!(
        out,
        "There is no entity {name} in this file. If another file has it, put both files in one:\n\
         cat a.vhd b.vhd"
    )
}

/// Writes what a formal at a place that names no port of an entity may have meant.
fn write_formal<W: Write>(
    alloc: Global,
    out: &mut W,
    entity: &Entity,
    associations: &[Association],
    at: usize,
) -> io::Result<()> {
    let Some(formal) = formal_at(associations, at) else {
        return Ok(());
    };
    let ports = ports_of(alloc, entity)?;
    write_stranger(alloc, out, ports.as_slice(), associations, formal.as_str())
}

/// Writes what is known of an unknown name at a place in an instance: the entity or a formal.
pub fn write_unknown<W: Write>(
    alloc: Global,
    out: &mut W,
    file: &DesignFile,
    at: usize,
) -> io::Result<()> {
    let Some(instance) = instance_at(file, at) else {
        return Ok(());
    };
    match entity_of(file, instance) {
        Some(entity) => write_formal(alloc, out, entity, instance.associations.as_slice(), at),
        None => write_no_entity(out, unit_name(instance).as_str()),
    }
}

/// Writes the port without an actual of the instance at a place.
pub fn write_missing<W: Write>(
    alloc: Global,
    out: &mut W,
    file: &DesignFile,
    at: usize,
) -> io::Result<()> {
    let Some(instance) = instance_at(file, at) else {
        return Ok(());
    };
    match entity_of(file, instance) {
        Some(entity) => write_ports(alloc, out, entity, instance.associations.as_slice()),
        None => Ok(()),
    }
}
