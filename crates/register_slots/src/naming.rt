//! Names for the slots.

use ir_tree::{Names, copy_name};
use std::alloc::Global;
use support::NoMemory;

/// A table of the first `count` names, of all where there are fewer.
pub fn first_names(alloc: Global, names: &Names, count: usize) -> Result<Names, NoMemory> {
    let mut first = Names::new(alloc);
    for number in 0..count {
        if let Some(name) = names.get(number) {
            first.number(copy_name(alloc, name)?)?;
        }
    }
    Ok(first)
}
