//! Calls of the parser and of elaboration.

use sim_flat::{FlatError, flatten};
use sim_run::Design;
use sim_text::{TextError, parse};
use sim_text_tree::file::DesignFile;
use std::alloc::Global;

/// The tree of a text.
pub fn tree_of(alloc: Global, source: &[u8]) -> Result<DesignFile, TextError> {
    match parse(alloc, source) {
        Err(TextError::Memory) => parse(alloc, source),
        found => found,
    }
}

/// The flat design of a tree.
pub fn design_of(alloc: Global, tree: &DesignFile, top: &str) -> Result<Design, FlatError> {
    match flatten(alloc, tree, top) {
        Err(FlatError::Memory) => flatten(alloc, tree, top),
        found => found,
    }
}
