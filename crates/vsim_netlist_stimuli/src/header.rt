//! The header of a VCD: its scopes and variables.

use crate::times::{in_femtoseconds, number_and_unit};
use std::alloc::{AllocError, Global};
use vsim_netlist_design::{Draft, Fault, push};

/// A variable: the index of its scope, its name, its number of bits, and its code.
#[derive(Clone, Copy)]
pub(crate) struct Variable<'a> {
    pub(crate) scope: usize,
    pub(crate) name: &'a str,
    pub(crate) width: usize,
    pub(crate) code: &'a str,
}

/// A scope: its path, with dots, and its depth.
#[derive(Drop)]
pub(crate) struct Scope {
    pub(crate) path: String,
    pub(crate) depth: usize,
}

/// The header of a VCD, as far as it has been read.
pub(crate) struct Header<'a> {
    alloc: Global,
    /// The words of the present section.
    words: Vec<&'a str>,
    /// The indices of the open scopes.
    open: Vec<usize>,
    pub(crate) scopes: Vec<Scope>,
    pub(crate) variables: Vec<Variable<'a>>,
    /// The unit of time, in femtoseconds.
    pub(crate) scale: u64,
    pub(crate) is_done: bool,
}

impl Drop for Header<'_> {
    fn drop(self) {
        let Header {
            alloc: _,
            words: _words,
            open: _open,
            scopes: _scopes,
            variables: _variables,
            scale: _,
            is_done: _,
        } = self;
    }
}

/// A name without a range after it, or an escaped name without its backslash.
fn bare(name: &str) -> &str {
    if let Some(escaped) = name.strip_prefix("\\") {
        return escaped;
    }
    match name.split_once('[') {
        Some((name, _)) if !name.is_empty() => name,
        _ => name,
    }
}

/// A time scale in femtoseconds. The unit may be a separate word.
fn scale(first: &str, second: &str) -> Option<u64> {
    let (number, unit) = number_and_unit(first);
    in_femtoseconds(number, if unit.is_empty() { second } else { unit })
}

/// The width of a variable.
fn read_width(alloc: Global, text: &str) -> Result<usize, Fault> {
    match text.parse::<usize>() {
        Ok(width) => Ok(width),
        Err(_) => Err(Fault::of(alloc, &["a variable has no width"])),
    }
}

/// The refusal of a word outside sections.
fn no_section(alloc: Global, word: &str) -> Fault {
    Fault::of(alloc, &["'", word, "' begins no section of a VCD"])
}

impl<'a> Header<'a> {
    /// Nothing has been read.
    pub(crate) fn new(alloc: Global) -> Header<'a> {
        Header {
            alloc,
            words: Vec::new(alloc),
            open: Vec::new(alloc),
            scopes: Vec::new(alloc),
            variables: Vec::new(alloc),
            scale: 1,
            is_done: false,
        }
    }

    /// The open scope.
    fn open_scope(&self) -> Option<&Scope> {
        match self.open.last() {
            Some(place) => self.scopes.get(*place),
            None => None,
        }
    }

    /// The path of a scope inside the open one.
    fn path(&self, name: &str) -> Result<String, AllocError> {
        let mut path = Draft::new(self.alloc);
        if let Some(outer) = self.open_scope() {
            path.push_all(&[outer.path.as_str(), "."]);
        }
        path.push(name);
        path.finish()
    }

    /// Adds a scope and opens it.
    fn open(&mut self, scope: Scope) -> Result<(), AllocError> {
        push(&mut self.open, self.scopes.len())?;
        push(&mut self.scopes, scope)
    }

    /// Enters a scope.
    fn enter(&mut self, name: &str) -> Result<(), Fault> {
        let path = self.path(name)?;
        let depth = self.open.len();
        Ok(self.open(Scope { path, depth })?)
    }

    /// Takes a variable, if it is in a scope.
    fn declare(&mut self, width: &str, code: &'a str, name: &'a str) -> Result<(), Fault> {
        let width = read_width(self.alloc, width)?;
        let Some(scope) = self.open.last() else {
            return Ok(());
        };
        let variable = Variable {
            scope: *scope,
            name: bare(name),
            width,
            code,
        };
        Ok(push(&mut self.variables, variable)?)
    }

    /// The word at an index of the section.
    fn word(&self, at: usize) -> &'a str {
        match self.words.get(at) {
            Some(word) => word,
            None => "",
        }
    }

    /// Leaves the open scope.
    fn leave(&mut self) {
        let _ = self.open.pop();
    }

    /// Reads the time scale.
    fn take_scale(&mut self, first: &str, second: &str) -> Result<(), Fault> {
        let Some(scale) = scale(first, second) else {
            return Err(Fault::of(self.alloc, &["the time scale is none"]));
        };
        self.scale = scale;
        Ok(())
    }

    /// Reads a section.
    fn close(&mut self) -> Result<(), Fault> {
        let (first, second, third) = (self.word(0), self.word(1), self.word(2));
        let (fourth, fifth) = (self.word(3), self.word(4));
        self.words.clear();
        match first {
            "$scope" => self.enter(third),
            "$var" => self.declare(third, fourth, fifth),
            "$timescale" => self.take_scale(second, third),
            "$upscope" => {
                self.leave();
                Ok(())
            }
            "$enddefinitions" => {
                self.is_done = true;
                Ok(())
            }
            _ => Ok(()),
        }
    }

    /// Adds a word to the section.
    fn add(&mut self, word: &'a str) -> Result<(), Fault> {
        Ok(push(&mut self.words, word)?)
    }

    /// Reads the next word.
    pub(crate) fn take(&mut self, word: &'a str) -> Result<(), Fault> {
        if word == "$end" {
            return self.close();
        }
        if self.words.is_empty() && !word.starts_with("$") {
            return Err(no_section(self.alloc, word));
        }
        self.add(word)
    }
}
