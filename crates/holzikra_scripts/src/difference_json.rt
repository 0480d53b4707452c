//! The differences of two scripts' code as an object of JSON.

use holzikra_diff::{Change, Difference, Side};
use holzikra_edits::{Edit, LineTable};
use holzikra_json::Members;
use holzikra_names::Source;
use holzikra_objects::{kind_name, name_value};
use holzikra_stats::counts_of;
use serde_json::Value;
use std::alloc::{AllocError, Global};
use stencil_data::{Extent, MergedStencil};

/// An object with one member, a line of code.
fn line_value(
    alloc: Global,
    table: &LineTable,
    key: &str,
    line: usize,
) -> Result<Value, AllocError> {
    let text = String::from_utf16_lossy(alloc, table.line(line))?;
    let mut members = Members::new(alloc);
    members.text(key, text.as_str())?;
    Ok(members.object())
}

/// An edit: a line that is kept, removed or added; or how many kept lines are not named.
fn edit_value(alloc: Global, table: &LineTable, edit: Edit) -> Result<Value, AllocError> {
    match edit {
        Edit::Keep(line) => line_value(alloc, table, "keep", line),
        Edit::Remove(line) => line_value(alloc, table, "remove", line),
        Edit::Add(line) => line_value(alloc, table, "add", line),
        Edit::Pass(count) => {
            let mut members = Members::new(alloc);
            members.number("pass", Some(count as u64))?;
            Ok(members.object())
        }
    }
}

/// The list of the edits of a function's code.
fn edits_value(alloc: Global, table: &LineTable, edits: &[Edit]) -> Result<Value, AllocError> {
    let mut values = Vec::new(alloc);
    for edit in edits {
        values.push(edit_value(alloc, table, *edit)?)?;
    }
    Ok(Value::Array(values))
}

/// What a function is called and how it is written; the script itself is function 0.
fn put_name(
    members: &mut Members,
    alloc: Global,
    merged: &MergedStencil,
    number: usize,
) -> Result<(), AllocError> {
    let found = merged.records.get(number.wrapping_sub(1));
    match found {
        None => {
            members.text("kind", "script")?;
            members.put("name", Value::Null)
        }
        Some(lazy) => {
            members.text("kind", kind_name(lazy.kind))?;
            let name = name_value(alloc, &merged.texts, lazy.name)?;
            members.put("name", name)
        }
    }
}

fn extent_of(merged: &MergedStencil, number: usize) -> Extent {
    match merged.records.get(number.wrapping_sub(1)) {
        None => merged.top.extent,
        Some(lazy) => lazy.extent,
    }
}

/// The number of a function and where it starts; null where it is not in the script.
fn function_value<S: Source>(
    alloc: Global,
    side: &Side<'_, S>,
    number: Option<usize>,
) -> Result<Value, AllocError> {
    let Some(number) = number else {
        return Ok(Value::Null);
    };
    let start = extent_of(side.merged, number).start;
    let mut members = Members::new(alloc);
    if let Some(spot) = side.source.spot(start) {
        members.number("column", Some(spot.column as u64))?;
        members.number("line", Some(spot.line as u64))?;
    }
    members.number("number", Some(number as u64))?;
    members.number("offset", Some(u64::from(start)))?;
    Ok(members.object())
}

/// What became of a function.
fn change_value<S: Source, T: Source>(
    alloc: Global,
    old: &Side<'_, S>,
    new: &Side<'_, T>,
    table: &LineTable,
    change: &Change,
) -> Result<Value, AllocError> {
    let mut members = Members::new(alloc);
    match change.new {
        Some(number) => put_name(&mut members, alloc, new.merged, number)?,
        None => put_name(&mut members, alloc, old.merged, change.old.unwrap_or(0))?,
    }
    members.put("edits", edits_value(alloc, table, &change.edits)?)?;
    members.put("new", function_value(alloc, new, change.new)?)?;
    members.put("old", function_value(alloc, old, change.old)?)?;
    Ok(members.object())
}

/// The list of what became of the functions that differ.
fn changes_value<S: Source, T: Source>(
    alloc: Global,
    old: &Side<'_, S>,
    new: &Side<'_, T>,
    difference: &Difference,
) -> Result<Value, AllocError> {
    let mut values = Vec::new(alloc);
    for change in &difference.changes {
        if change.is_told() {
            values.push(change_value(alloc, old, new, &difference.table, change)?)?;
        }
    }
    Ok(Value::Array(values))
}

/// One of the scripts: the name of its file, and the bytes of all of its code.
fn side_value<S: Source>(alloc: Global, side: &Side<'_, S>) -> Result<Value, AllocError> {
    let counts = counts_of(alloc, side.merged)?;
    let mut members = Members::new(alloc);
    members.number("code_bytes", u64::try_from(counts.bytes).ok())?;
    members.text("file", side.name)?;
    Ok(members.object())
}

/// The differences of two scripts as a JSON object in a line. It takes time in proportion to the functions and to what is written.
pub(crate) fn difference_line<S: Source, T: Source>(
    alloc: Global,
    old: &Side<'_, S>,
    new: &Side<'_, T>,
    difference: &Difference,
) -> Result<String, AllocError> {
    let counts = difference.counts();
    let mut members = Members::of_file(alloc, new.name, "difference")?;
    members.number("added", Some(counts.added as u64))?;
    members.number("changed", Some(counts.changed as u64))?;
    members.put("changes", changes_value(alloc, old, new, difference)?)?;
    members.put("differs", Value::Bool(counts.differs()))?;
    members.put("new", side_value(alloc, new)?)?;
    members.put("old", side_value(alloc, old)?)?;
    members.number("removed", Some(counts.removed as u64))?;
    members.number("same", Some(counts.same as u64))?;
    members.put("script_changed", Value::Bool(counts.script))?;
    members.line()
}
