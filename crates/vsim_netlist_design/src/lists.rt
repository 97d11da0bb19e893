//! Lists that grow.

use std::alloc::{AllocError, Global};

/// Adds an item to a list, by one call however the item is made.
pub fn push<T: Drop>(list: &mut Vec<T>, item: T) -> Result<(), AllocError> {
    list.push(item)?;
    Ok(())
}

/// This number of empty lists.
pub fn empty_lists<T: Drop>(alloc: Global, count: usize) -> Result<Vec<Vec<T>>, AllocError> {
    let mut lists = Vec::new(alloc);
    for _ in 0..count {
        push(&mut lists, Vec::new(alloc))?;
    }
    Ok(lists)
}
