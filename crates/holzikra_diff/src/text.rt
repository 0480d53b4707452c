//! The differences of two scripts as text.

use crate::changes::{Change, Counts, Difference};
use crate::heads::Functions;
use crate::hunks::append_edits;
use holzikra_names::{Source, append_spot, around_functions};
use holzikra_stats::counts_of;
use script_image::append_decimal;
use std::alloc::{AllocError, Global};
use stencil_data::MergedStencil;

/// One of the scripts that are compared.
#[derive(Drop)]
pub struct Side<'a, S> {
    /// How it is called, as a terminal may show it.
    pub name: &'a str,
    pub merged: &'a MergedStencil,
    pub source: &'a S,
}

/// Appends a word and the place at which the function of this number starts, where the source text is at hand.
fn append_place<S: Source>(
    out: &mut Vec<u8>,
    word: &str,
    side: &Side<'_, S>,
    number: Option<usize>,
) -> Result<(), AllocError> {
    let merged = side.merged;
    let extent = match number {
        None => return Ok(()),
        Some(0) => merged.top.extent,
        Some(number) => match merged.records.get(number - 1) {
            None => return Ok(()),
            Some(lazy) => lazy.extent,
        },
    };
    let Some(spot) = side.source.spot(extent.start) else {
        return Ok(());
    };
    out.extend_from_slice(b"  ")?;
    out.extend_from_slice(word.as_bytes())?;
    out.extend_from_slice(b" ")?;
    append_spot(out, spot)
}

/// Appends how a function of a script is called.
fn append_called(
    alloc: Global,
    out: &mut Vec<u8>,
    merged: &MergedStencil,
    around: &[u32],
    number: usize,
) -> Result<(), AllocError> {
    let functions = Functions { merged, around };
    functions.append_chain(alloc, out, u32::try_from(number).unwrap_or(u32::MAX))
}

/// Appends the line in front of a function's changes: how it is called, and where it stands.
fn append_head<S: Source, T: Source>(
    alloc: Global,
    out: &mut Vec<u8>,
    old: &Side<'_, S>,
    new: &Side<'_, T>,
    old_around: &[u32],
    new_around: &[u32],
    change: &Change,
) -> Result<(), AllocError> {
    out.extend_from_slice(b"@@ ")?;
    match change.new {
        Some(number) => append_called(alloc, out, new.merged, new_around, number)?,
        None => append_called(alloc, out, old.merged, old_around, change.old.unwrap_or(0))?,
    }
    append_place(out, "old", old, change.old)?;
    append_place(out, "new", new, change.new)?;
    let word = match (change.old, change.new) {
        (None, _) => "  added",
        (_, None) => "  removed",
        _ => "",
    };
    out.extend_from_slice(word.as_bytes())?;
    out.extend_from_slice(b"\n")?;
    Ok(())
}

/// Appends the line of a script's name.
fn append_name_line(out: &mut Vec<u8>, mark: &[u8], name: &str) -> Result<(), AllocError> {
    out.extend_from_slice(mark)?;
    out.extend_from_slice(name.as_bytes())?;
    out.extend_from_slice(b"\n")?;
    Ok(())
}

fn append_count(
    out: &mut Vec<u8>,
    before: &[u8],
    count: usize,
    behind: &[u8],
) -> Result<(), AllocError> {
    out.extend_from_slice(before)?;
    append_decimal(out, count as u64)?;
    out.extend_from_slice(behind)?;
    Ok(())
}

/// Appends the line of counts.
fn append_counts(
    out: &mut Vec<u8>,
    counts: Counts,
    old_bytes: u64,
    new_bytes: u64,
) -> Result<(), AllocError> {
    if counts.script {
        out.extend_from_slice(b"script changed, ")?;
    }
    let words: &[u8] = if counts.changed == 1 {
        b" function changed"
    } else {
        b" functions changed"
    };
    append_count(out, b"", counts.changed, words)?;
    append_count(out, b", ", counts.added, b" added")?;
    append_count(out, b", ", counts.removed, b" removed")?;
    append_count(out, b", ", counts.same, b" the same; code ")?;
    append_decimal(out, new_bytes)?;
    out.extend_from_slice(b" bytes, was ")?;
    append_decimal(out, old_bytes)?;
    out.extend_from_slice(b"\n")?;
    Ok(())
}

/// The bytes of all code of a script.
fn bytes_of(alloc: Global, merged: &MergedStencil) -> Result<u64, AllocError> {
    let counts = counts_of(alloc, merged)?;
    Ok(u64::try_from(counts.bytes).unwrap_or(u64::MAX))
}

/// Appends the differences of two scripts: their names, then of each function that changed how it is called, where it stands, and
/// what was done to the lines of its code, and last how many functions changed. Where nothing differs, nothing is appended.
///
/// It takes time in proportion to what is appended and to the functions, and is an error only where memory runs out.
pub fn append_difference<S: Source, T: Source>(
    alloc: Global,
    out: &mut Vec<u8>,
    old: &Side<'_, S>,
    new: &Side<'_, T>,
    difference: &Difference,
) -> Result<(), AllocError> {
    let counts = difference.counts();
    if !counts.differs() {
        return Ok(());
    }
    let old_around = around_functions(alloc, old.merged)?;
    let new_around = around_functions(alloc, new.merged)?;
    append_name_line(out, b"--- ", old.name)?;
    append_name_line(out, b"+++ ", new.name)?;
    for change in &difference.changes {
        if change.is_told() {
            append_head(alloc, out, old, new, &old_around, &new_around, change)?;
            append_edits(out, &difference.table, &change.edits)?;
        }
    }
    let old_bytes = bytes_of(alloc, old.merged)?;
    let new_bytes = bytes_of(alloc, new.merged)?;
    append_counts(out, counts, old_bytes, new_bytes)
}
