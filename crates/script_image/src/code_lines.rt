//! The lines of a script's code: one for each instruction, then one for each try note.

ghost use Rattle.std.specs.Prelude.{◌≡◌, ◌+◌, ◌-◌, ◌%◌, ◌^◌, ◌≤◌, [], ◌∷◌, ◌++◌, flat_map, length, OnOk};
ghost use Rattle.std.specs.Fmt.{decimal};
ghost use Rattle.std.specs.Int.{cast_unsigned, w64};
ghost use Rattle.bytecode_buf.specs.Command as command;
ghost use Rattle.script_image.specs.CodeLines as lines;
ghost use Rattle.script_image.specs.Listed.{listed_script};
ghost use Rattle.script_image.specs.ReadLines.{read_as, read_operand};
ghost use Rattle.script_image.specs.Pieces.{left_from, walked};

use crate::chunk::{Chunk, flush, put, put_byte};
use crate::names::op_name;
use crate::quoted::{put_column, put_decimal, put_quoted, put_range, text_at};
use bytecode_buf::{Instr, Shape, decode_at};
use std::alloc::AllocError;
use stencil_data::{FunctionStencil, Text, TryNote};

/// Puts a blank and a number after a chunk.
fn put_number(out: &mut Vec<u8>, chunk: &mut Chunk, number: u64) -> Result<(), AllocError>
    ensures { OnOk result (out.new.items ++ chunk.new.items ≡ (out.old.items ++ chunk.old.items) ++ ((32 ∷ []) ++ decimal number)) }
{
    put_byte(out, chunk, b' ')?;
    put_decimal(out, chunk, number)
}

/// Puts a blank and a text in quotes after a chunk.
fn put_text(out: &mut Vec<u8>, chunk: &mut Chunk, units: &[u16]) -> Result<(), AllocError>
    ensures { OnOk result (out.new.items ++ chunk.new.items ≡ (out.old.items ++ chunk.old.items) ++ lines.operand_text (command.Text units.now)) }
{
    put_byte(out, chunk, b' ')?;
    put_quoted(out, chunk, units)
}

/// Puts hops and a slot after a chunk, a blank before each.
fn put_aliased(out: &mut Vec<u8>, chunk: &mut Chunk, hops: u64, slot: u64) -> Result<(), AllocError>
    ensures { OnOk result (out.new.items ++ chunk.new.items ≡ (out.old.items ++ chunk.old.items) ++ lines.operand_text (command.Aliased hops slot)) }
{
    put_number(out, chunk, hops)?;
    put_number(out, chunk, slot)
}

/// The offset to which a jump at an offset goes.
fn target_of(at: usize, distance: i64) -> u64
    ensures { result ≡ (at + cast_unsigned w64 distance) % 2 ^ 64 }
{
    (at as u64).wrapping_add(distance.cast_unsigned())
}

/// Puts the operands of an instruction of this shape that was read at an offset after a chunk.
fn put_operand(
    out: &mut Vec<u8>,
    chunk: &mut Chunk,
    at: usize,
    shape: Shape,
    instr: Instr,
    texts: &[Text],
) -> Result<(), AllocError>
    ensures { OnOk result (out.new.items ++ chunk.new.items
        ≡ (out.old.items ++ chunk.old.items) ++ lines.operand_text (read_operand texts.now at shape instr)) }
{
    match shape {
        Shape::Nothing => (),
        Shape::Whole8 => put_number(out, chunk, instr.a)?,
        Shape::Whole16 => put_number(out, chunk, instr.a)?,
        Shape::Whole24 => put_number(out, chunk, instr.a)?,
        Shape::Whole32 => put_number(out, chunk, instr.a)?,
        Shape::Whole64 => put_number(out, chunk, instr.a)?,
        Shape::Atom => put_text(out, chunk, text_at(texts, instr.a))?,
        Shape::Arg => put_number(out, chunk, instr.a)?,
        Shape::Slot => put_number(out, chunk, instr.a)?,
        Shape::Aliased => put_aliased(out, chunk, instr.a, instr.b)?,
        Shape::Num => put_number(out, chunk, instr.a)?,
        Shape::Argc => put_number(out, chunk, instr.a)?,
        Shape::Place => put_number(out, chunk, instr.a)?,
        Shape::Jump => put_number(out, chunk, target_of(at, instr.to))?,
    }
    Ok(())
}

/// Puts the line of an instruction that was read at an offset after a chunk.
fn put_line(
    out: &mut Vec<u8>,
    chunk: &mut Chunk,
    at: usize,
    instr: Instr,
    texts: &[Text],
) -> Result<(), AllocError>
    ensures { OnOk result (out.new.items ++ chunk.new.items ≡ (out.old.items ++ chunk.old.items) ++ lines.line (read_as texts.now at instr)) }
{
    put_column(out, chunk, at as u64)?;
    put(out, chunk, op_name(instr.op).as_bytes())?;
    put_operand(out, chunk, at, instr.op.row().shape, instr, texts)?;
    put_byte(out, chunk, b'\n')
}

/// Puts the lines of some instructions of a code after a chunk: those from an offset on, which stand after `turn` others, as far
/// as the one that stands after `end` others.
fn put_instructions(
    out: &mut Vec<u8>,
    chunk: &mut Chunk,
    code: &[u8],
    texts: &[Text],
    from: usize,
    turn: usize,
    end: usize,
) -> Result<(), AllocError>
    requires ends { (turn ≤ end) × (end ≤ length code.now) }
    ensures { OnOk result ((out.new.items ++ chunk.new.items)
        ++ lines.listing (command.listed_from texts.now (walked code.now from (end - turn))
        (left_from code.now (walked code.now from (end - turn)) end))
        ≡ (out.old.items ++ chunk.old.items) ++ lines.listing (command.listed_from texts.now from (left_from code.now from turn))) }
{
    let mut at = from;
    for _ in turn..end {
        match decode_at(code, at) {
            None => return Ok(()),
            Some(instr) => {
                put_line(out, chunk, at, instr, texts)?;
                at = instr.next;
            }
        }
    }
    Ok(())
}

/// Appends the lines of some instructions of a code: those from an offset on, which stand after `turn` others, as far as the one
/// that stands after `end` others.
pub(crate) fn append_instructions(
    out: &mut Vec<u8>,
    code: &[u8],
    texts: &[Text],
    from: usize,
    turn: usize,
    end: usize,
) -> Result<(), AllocError>
    requires ends { (turn ≤ end) × (end ≤ length code.now) }
    ensures { OnOk result (out.new.items ++ lines.listing
        (command.listed_from texts.now (walked code.now from (end - turn)) (left_from code.now (walked code.now from (end - turn)) end))
        ≡ out.old.items ++ lines.listing (command.listed_from texts.now from (left_from code.now from turn))) }
{
    let mut chunk = Chunk::new();
    put_instructions(out, &mut chunk, code, texts, from, turn, end)?;
    flush(out, &mut chunk)
}

/// Puts the line of a try note after a chunk.
fn put_note(out: &mut Vec<u8>, chunk: &mut Chunk, note: TryNote) -> Result<(), AllocError>
    ensures { OnOk result (out.new.items ++ chunk.new.items ≡ (out.old.items ++ chunk.old.items) ++ lines.note_line note) }
{
    put(out, chunk, b"  catch ")?;
    put_range(out, chunk, note.start, note.end)?;
    put(out, chunk, b" depth ")?;
    put_decimal(out, chunk, u64::from(note.depth))?;
    put_byte(out, chunk, b'\n')
}

fn put_notes(out: &mut Vec<u8>, chunk: &mut Chunk, notes: &[TryNote]) -> Result<(), AllocError>
    ensures { OnOk result (out.new.items ++ chunk.new.items ≡ (out.old.items ++ chunk.old.items) ++ flat_map lines.note_line notes.now) }
{
    for note in notes {
        put_note(out, chunk, *note)?;
    }
    Ok(())
}

/// Appends what is left of the lines under the line of a compiled script for its code: those of the instructions from an offset
/// on, which stand after `turn` others, and those of the try notes.
pub(crate) fn append_code_from(
    out: &mut Vec<u8>,
    texts: &[Text],
    code: &[u8],
    notes: &[TryNote],
    from: usize,
    turn: usize,
) -> Result<(), AllocError>
    requires { turn ≤ length code.now }
    ensures { OnOk result (out.new.items ≡ out.old.items
        ++ (lines.listing (command.listed_from texts.now from (left_from code.now from turn)) ++ flat_map lines.note_line notes.now)) }
{
    let mut chunk = Chunk::new();
    put_instructions(out, &mut chunk, code, texts, from, turn, code.len())?;
    put_notes(out, &mut chunk, notes)?;
    flush(out, &mut chunk)?;
    Ok(())
}

/// Appends what stands under the line of a compiled script for its code.
pub(crate) fn append_code(
    out: &mut Vec<u8>,
    texts: &[Text],
    script: &FunctionStencil,
) -> Result<(), AllocError>
    ensures { OnOk result (out.new.items ≡ out.old.items ++ lines.code_lines (listed_script texts.now script.now)) }
{
    append_code_from(out, texts, &script.code, &script.notes, 0, 0)?;
    Ok(())
}

/// The offset behind n instructions of a code, of which the first stands at an offset; behind all that are read where these are
/// fewer.
pub(crate) fn offset_behind(code: &[u8], from: usize, count: usize) -> usize
    ensures { result ≡ walked code.now from count }
{
    let mut at = from;
    for _ in 0..count {
        match decode_at(code, at) {
            None => return at,
            Some(instr) => at = instr.next,
        }
    }
    at
}
