//! How deep functions are nested.

use std::alloc::{AllocError, Global};
use stencil_data::MergedStencil;

/// Gives the functions directly in one the level behind its own.
fn enter(levels: &mut [u32], inner: &[u32], level: u32) {
    for number in inner {
        if (*number as usize) < levels.len() {
            levels[*number as usize] = level;
        }
    }
}

/// The greatest level of a function: 1 is that of one which stands in the script itself, and 0 comes where there is none.
pub fn nesting_of(alloc: Global, merged: &MergedStencil) -> Result<u32, AllocError> {
    let mut levels = vec![in alloc; 1u32; merged.records.len().saturating_add(1)]?;
    let mut most = 0u32;
    for (index, lazy) in merged.records.iter().enumerate() {
        let level = levels.get(index.saturating_add(1)).copied().unwrap_or(1);
        most = most.max(level);
        enter(&mut levels, &lazy.inner, level.saturating_add(1));
    }
    Ok(most)
}
