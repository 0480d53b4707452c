//! The tree of a script's functions.

use crate::escape::append_text;
use crate::frame::{append_all, append_numbers};
use holzikra_finding::Shown;
use holzikra_names::{Source, append_script, append_spot, around_functions};
use holzikra_scopes::is_hidden;
use std::alloc::{AllocError, Global};
use stencil_data::{Extent, MergedStencil};

/// How many functions are around each one, the script being function 0.
pub(crate) fn levels_of(alloc: Global, around: &[u32]) -> Result<Vec<usize>, AllocError> {
    let mut levels = vec![in alloc; 0usize; around.len()]?;
    for number in 1..around.len() {
        let outer = around[number] as usize;
        if outer < number && number < levels.len() && outer < levels.len() {
            levels[number] = levels[outer].saturating_add(1);
        }
    }
    Ok(levels)
}

/// Appends the places from which and up to which a function stands, as attributes of its link.
fn append_extent<S: Source>(
    out: &mut Vec<u8>,
    source: &S,
    extent: Extent,
) -> Result<(), AllocError> {
    let (Some(start), Some(end)) = (source.spot(extent.start), source.spot(extent.end)) else {
        return Ok(());
    };
    append_all(out, &["\" data-from=\""])?;
    append_spot(out, start)?;
    append_all(out, &["\" data-to=\""])?;
    append_spot(out, end)
}

/// Opens an item with the link of a function: how it is called, and where it is on the page.
fn open_item<S: Source>(
    alloc: Global,
    out: &mut Vec<u8>,
    file: usize,
    merged: &MergedStencil,
    source: &S,
    number: u32,
    extent: Extent,
) -> Result<(), AllocError> {
    append_numbers(out, &[("<li><a href=\"#f", file), ("n", number as usize)])?;
    append_extent(out, source, extent)?;
    append_all(out, &["\">"])?;
    let mut name = Vec::new(alloc);
    append_script(alloc, &mut name, merged, number)?;
    append_text(out, &name)?;
    append_all(out, &["</a>"])
}

/// Opens lists inside the item that is open, or closes items and lists, from a level to another one. An item of the level may stand next.
fn change_level(out: &mut Vec<u8>, from: usize, to: usize) -> Result<(), AllocError> {
    if to > from {
        append_all(out, &["\n"])?;
    } else {
        append_all(out, &["</li>\n"])?;
    }
    for _ in from..to {
        append_all(out, &["<ul>\n"])?;
    }
    for _ in to..from {
        append_all(out, &["</ul></li>\n"])?;
    }
    Ok(())
}

/// Appends the tree of a script's functions, without those that are hidden.
pub(crate) fn append_functions<S: Source>(
    alloc: Global,
    out: &mut Vec<u8>,
    file: usize,
    merged: &MergedStencil,
    source: &S,
    shown: &[Shown],
) -> Result<(), AllocError> {
    let around = around_functions(alloc, merged)?;
    let levels = levels_of(alloc, &around)?;
    append_all(out, &["<ul class=\"functions\">\n"])?;
    open_item(alloc, out, file, merged, source, 0, merged.top.extent)?;
    let mut level = 0;
    let mut number = 0u32;
    for lazy in &merged.records {
        number = number.saturating_add(1);
        if !is_hidden(shown, number) {
            let next = levels.get(number as usize).copied().unwrap_or(0);
            change_level(out, level, next)?;
            level = next;
            open_item(alloc, out, file, merged, source, number, lazy.extent)?;
        }
    }
    change_level(out, level, 0)?;
    append_all(out, &["</ul>\n"])
}
