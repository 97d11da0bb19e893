//! The declared name that an unknown one may have meant.

use crate::nearest::meant;
use sim_text_tree::DesignFile;
use sim_text_tree::declaration::{Declaration, PortDeclaration};
use sim_text_tree::name::Name;
use sim_text_tree::unit::{Architecture, LibraryUnit};
use std::alloc::{AllocError, Global};
use std::io::{self, Write};
use std::str::from_utf8;
use vsim_explain_source::tokens::first_word;

/// The name of a unit.
fn name_of(unit: &LibraryUnit) -> &Name {
    match unit {
        LibraryUnit::Entity(entity) => &entity.name,
        LibraryUnit::Architecture(architecture) => &architecture.name,
    }
}

/// The unit that has a place: the last one whose name comes before it.
fn unit_around(file: &DesignFile, at: usize) -> Option<&LibraryUnit> {
    let mut found = None;
    for unit in file.units() {
        if name_of(&unit.library_unit).at() < at {
            found = Some(&unit.library_unit);
        }
    }
    found
}

/// Adds names.
fn add<'a>(found: &mut Vec<&'a str>, names: &'a [Name]) -> Result<(), AllocError> {
    for name in names {
        if found.push(name.as_str()).is_err() {
            return Err(AllocError);
        }
    }
    Ok(())
}

/// Adds the names of ports.
fn add_ports<'a>(found: &mut Vec<&'a str>, ports: &'a [PortDeclaration]) -> Result<(), AllocError> {
    for each in ports {
        add(found, each.names.as_slice())?;
    }
    Ok(())
}

/// Adds the names of the ports of an entity.
fn add_entity<'a>(
    found: &mut Vec<&'a str>,
    file: &'a DesignFile,
    name: &str,
) -> Result<(), AllocError> {
    for unit in file.units() {
        if let LibraryUnit::Entity(entity) = &unit.library_unit {
            if entity.name.as_str() == name {
                add_ports(found, entity.ports.as_slice())?;
            }
        }
    }
    Ok(())
}

/// Adds the names of the signals of an architecture.
fn add_signals<'a>(
    found: &mut Vec<&'a str>,
    declarations: &'a [Declaration],
) -> Result<(), AllocError> {
    for declaration in declarations {
        if let Declaration::Signal(signals) = declaration {
            add(found, signals.names.as_slice())?;
        }
    }
    Ok(())
}

/// The signals and ports that an architecture sees.
fn seen<'a>(
    alloc: Global,
    file: &'a DesignFile,
    architecture: &'a Architecture,
) -> Result<Vec<&'a str>, AllocError> {
    let mut found = Vec::new(alloc);
    add_signals(&mut found, architecture.declarations.as_slice())?;
    add_entity(&mut found, file, architecture.entity.as_str())?;
    Ok(found)
}

/// Writes the signal or port that an unknown name at a place may have meant, if there is one.
pub fn write_meant_name<W: Write>(
    alloc: Global,
    out: &mut W,
    source: &[u8],
    file: &DesignFile,
    at: usize,
) -> io::Result<()> {
    let Some(LibraryUnit::Architecture(architecture)) = unit_around(file, at) else {
        return Ok(());
    };
    let (_, after) = source.split_at(at.min(source.len()));
    let Ok(word) = from_utf8(first_word(after)) else {
        return Ok(());
    };
    let names = seen(alloc, file, architecture)?;
    match meant(alloc, word, names.as_slice())? {
        Some(found) => writeln!(out, "{word} is not declared; did you mean {found}?"),
        None => Ok(()),
    }
}
