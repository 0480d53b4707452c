//! Edits as lines of text.

ghost use Rattle.std.specs.Prelude.{◌≡◌, ◌++◌, OnOk, map};
ghost use Rattle.holzikra_edits.specs.Lines.{line_of};
ghost use Rattle.holzikra_diff.specs.Hunks as hunks;

use holzikra_edits::{Edit, LineTable};
use script_image::append_decimal;
use std::alloc::AllocError;

fn byte_of(unit: u16) -> u8
    ensures { result ≡ hunks.byte_of unit }
{
    if unit < 256 { unit as u8 } else { b'?' }
}

fn append_units(out: &mut Vec<u8>, units: &[u16]) -> Result<(), AllocError>
    ensures { OnOk result (out.new.items ≡ out.old.items ++ map hunks.byte_of units.now) }
{
    for unit in units {
        out.push(byte_of(*unit))?;
    }
    Ok(())
}

fn append_marked(out: &mut Vec<u8>, mark: u8, line: &[u16]) -> Result<(), AllocError>
    ensures { OnOk result (out.new.items ≡ out.old.items ++ hunks.marked_line mark line.now) }
{
    out.push(mark)?;
    out.extend_from_slice(b"  ")?;
    append_units(out, line)?;
    out.push(b'\n')?;
    Ok(())
}

fn append_passed(out: &mut Vec<u8>, count: usize) -> Result<(), AllocError>
    ensures { OnOk result (out.new.items ≡ out.old.items ++ hunks.passed_text count) }
{
    out.extend_from_slice(b"~ ")?;
    append_decimal(out, count as u64)?;
    out.extend_from_slice(b" lines\n")?;
    Ok(())
}

fn append_edit(out: &mut Vec<u8>, table: &LineTable, edit: Edit) -> Result<(), AllocError>
    ensures { OnOk result (out.new.items ≡ out.old.items ++ hunks.edit_text table.now edit) }
{
    match edit {
        Edit::Keep(line) => append_marked(out, b' ', table.line(line))?,
        Edit::Pass(count) => append_passed(out, count)?,
        Edit::Remove(line) => append_marked(out, b'-', table.line(line))?,
        Edit::Add(line) => append_marked(out, b'+', table.line(line))?,
    }
    Ok(())
}

/// Appends edits, each in a line of its own, with the lines of a table.
pub fn append_edits(out: &mut Vec<u8>, table: &LineTable, edits: &[Edit]) -> Result<(), AllocError>
    ensures { OnOk result (out.new.items ≡ out.old.items ++ hunks.edits_text table.now edits.now) }
{
    for edit in edits {
        append_edit(out, table, *edit)?;
    }
    Ok(())
}
