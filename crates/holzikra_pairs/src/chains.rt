//! By what a function of one script is known in another one: the chain of names and kinds from the outermost function around it to
//! the function itself.

use holzikra_edits::LineTable;
use holzikra_names::{around_functions, text_at};
use std::alloc::{AllocError, Global};
use stencil_data::{LazyRecord, MergedStencil, Text};

/// Appends a number, the same count of units for each.
fn append_number(key: &mut Vec<u16>, number: usize) -> Result<(), AllocError> {
    let mut rest = number;
    for _ in 0..4 {
        key.push((rest % 65536) as u16)?;
        rest /= 65536;
    }
    Ok(())
}

/// The number of the chain of a function, where the functions around it have the chain of this number.
fn chain_of(
    alloc: Global,
    table: &mut LineTable,
    texts: &[Text],
    lazy: &LazyRecord,
    outer: usize,
) -> Result<usize, AllocError> {
    let mut key = Vec::new(alloc);
    append_number(&mut key, outer)?;
    key.push(lazy.kind as u16)?;
    if let Some(atom) = lazy.name {
        key.push(0)?;
        key.extend_from_slice(text_at(texts, atom))?;
    }
    table.number_of(alloc, &key)
}

/// For each function of a script, by number, the number of its chain, which equal chains of the same table share. The script itself
/// is function 0.
pub(crate) fn chains_of(
    alloc: Global,
    table: &mut LineTable,
    merged: &MergedStencil,
) -> Result<Vec<usize>, AllocError> {
    let around = around_functions(alloc, merged)?;
    let mut chains = Vec::new(alloc);
    let script = table.number_of(alloc, &[])?;
    chains.push(script)?;
    for lazy in &merged.records {
        let outer = around.get(chains.len()).copied().unwrap_or(0);
        let outer_chain = chains.get(outer as usize).copied().unwrap_or(script);
        chains.push(chain_of(alloc, table, &merged.texts, lazy, outer_chain)?)?;
    }
    Ok(chains)
}
