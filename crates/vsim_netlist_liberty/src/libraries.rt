//! The libraries of a Liberty file.

use crate::models::entry_of;
use std::alloc::Global;
use vsim_netlist_design::{Draft, Fault, Library, fault_at};
use vsim_netlist_liberty_text::{
    Form, Statement, Tokens, WrittenCell, read_cell, read_statement, skip_group, tokens_of,
    unexpected,
};

/// The library that is read, and the file as a refusal names it.
struct Target<'a> {
    library: &'a mut Library,
    file: &'a str,
}

impl Drop for Target<'_> {
    fn drop(self) {
        let Target {
            library: _,
            file: _,
        } = self;
    }
}

/// Adds a cell. Its name is new.
fn put_cell(alloc: Global, target: &mut Target<'_>, cell: &WrittenCell<'_>) -> Result<(), Fault> {
    let name = String::from_str(alloc, cell.name)?;
    let entry = entry_of(alloc, target.file, cell)?;
    Ok(target.library.put(name, entry)?)
}

/// Reads a cell, and adds it.
fn take_cell<'a>(
    alloc: Global,
    tokens: &mut Tokens<'a>,
    target: &mut Target<'_>,
    group: &Statement<'a>,
) -> Result<(), Fault> {
    let cell = read_cell(alloc, tokens, group)?;
    if target.library.find(cell.name).is_some() {
        return Err(fault_at(alloc, cell.line, &["cell ", cell.name, " is there twice"]));
    }
    put_cell(alloc, target, &cell)
}

/// Reads a group of a library.
fn take_group<'a>(
    alloc: Global,
    tokens: &mut Tokens<'a>,
    target: &mut Target<'_>,
    group: &Statement<'a>,
) -> Result<(), Fault> {
    if group.name == "cell" {
        return take_cell(alloc, tokens, target, group);
    }
    skip_group(alloc, tokens)
}

/// Refuses an attribute of a library that would make it another one.
fn demand_whole(alloc: Global, statement: &Statement<'_>) -> Result<(), Fault> {
    if statement.name == "include_file" {
        let told = "include_file is not supported: give that file by --liberty if it has cells";
        return Err(fault_at(alloc, statement.line, &[told]));
    }
    Ok(())
}

/// Reads the cells of a library.
fn read_cells<'a>(
    alloc: Global,
    tokens: &mut Tokens<'a>,
    target: &mut Target<'_>,
) -> Result<(), Fault> {
    for _ in 0..u64::MAX {
        let statement = read_statement(alloc, tokens)?;
        match statement.form {
            Form::End => break,
            Form::Attribute => demand_whole(alloc, &statement)?,
            Form::Group => take_group(alloc, tokens, target, &statement)?,
            Form::EndOfFile => return Err(unexpected(alloc, tokens, "a closing brace")),
        }
    }
    Ok(())
}

/// Reads a library, after its head.
fn take_library<'a>(
    alloc: Global,
    tokens: &mut Tokens<'a>,
    target: &mut Target<'_>,
    statement: &Statement<'a>,
) -> Result<(), Fault> {
    if statement.form == Form::Group && statement.name == "library" {
        return read_cells(alloc, tokens, target);
    }
    Err(fault_at(alloc, statement.line, &["'library (NAME) {' is wanted"]))
}

/// Reads all libraries of a file, and returns whether there is one.
fn read_libraries<'a>(
    alloc: Global,
    tokens: &mut Tokens<'a>,
    target: &mut Target<'_>,
) -> Result<bool, Fault> {
    let mut has_library = false;
    for _ in 0..u64::MAX {
        let statement = read_statement(alloc, tokens)?;
        if statement.form == Form::EndOfFile {
            break;
        }
        take_library(alloc, tokens, target, &statement)?;
        has_library = true;
    }
    Ok(has_library)
}

/// Reads a file.
fn read_file(alloc: Global, target: &mut Target<'_>, text: &[u8]) -> Result<(), Fault> {
    let mut tokens = tokens_of(text);
    if !read_libraries(alloc, &mut tokens, target)? {
        return Err(Fault::of(alloc, &["there is no library"]));
    }
    Ok(())
}

/// Adds the cells of a Liberty file, given its path, to a library.
pub fn read_library(
    alloc: Global,
    library: &mut Library,
    path: &str,
    text: &[u8],
) -> Result<(), Fault> {
    let mut file = Draft::of(alloc, "the Liberty file ");
    file.push(path);
    let file = file.finish()?;
    let mut target = Target {
        library,
        file: file.as_str(),
    };
    match read_file(alloc, &mut target, text) {
        Ok(()) => Ok(()),
        Err(fault) => Err(fault.about(alloc, &[file.as_str()])),
    }
}
