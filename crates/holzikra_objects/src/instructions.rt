//! Values of instructions and try notes.

ghost use Rattle.std.specs.Prelude.{◌≡◌, ◌+◌, ◌%◌, ◌^◌, map, IfOk, OnOk, string_bytes};
ghost use Rattle.std.specs.Fmt.{decimal};
ghost use Rattle.std.specs.Int.{cast_unsigned, w64};
ghost use Rattle.serde_json.specs.Data.{object};
ghost use Rattle.serde_json.specs.View.{view};
ghost use Rattle.bytecode_buf.specs.Command.{listed};
ghost use Rattle.script_image.specs.ReadLines.{read_as, read_operand};
ghost use Rattle.holzikra_json.specs.Lines.{members_of};
ghost use Rattle.holzikra_objects.specs.Objects as objects;

use crate::lists::list;
use crate::notes::{InstructionNote, ScriptNotes, put_instruction, put_line, start_of};
use crate::texts::{text_at, text_value};
use bytecode_buf::{Instr, Op, Shape, decode_at};
use holzikra_json::Members;
use script_image::op_name;
use serde_json::Value;
use std::alloc::{AllocError, Global};
use stencil_data::{Text, TryNote};

/// The decimal digits of a number.
fn digits(alloc: Global, number: u64) -> Result<String, AllocError>
    ensures { IfOk result (λ text. string_bytes text ≡ decimal number) }
{
    Value::from(number).to_string(alloc)
}

/// Puts in a number that an instruction with this opcode has; with that of a function the line in which it starts.
fn put_number(
    members: &mut Members,
    alloc: Global,
    all: &[ScriptNotes],
    op: Op,
    number: u64,
) -> Result<(), AllocError>
    ensures { OnOk result (members_of members.new ≡ objects.number_members all.now op number (members_of members.old)) }
{
    match op {
        Op::Lambda => {
            members.number("function", Some(number))?;
            put_line(members, start_of(all, number as usize))?;
        }
        Op::Double => {
            let bits = digits(alloc, number)?;
            members.text("bits", bits.as_str())?;
        }
        _ => members.number("number", Some(number))?,
    }
    Ok(())
}

/// The offset to which a jump at an offset goes.
fn target_of(at: usize, distance: i64) -> u64
    ensures { result ≡ (at + cast_unsigned w64 distance) % 2 ^ 64 }
{
    (at as u64).wrapping_add(distance.cast_unsigned())
}

/// Puts in a text.
fn put_text(members: &mut Members, alloc: Global, units: &[u16]) -> Result<(), AllocError>
    ensures { OnOk result (members_of members.new ≡ objects.put_text units.now (members_of members.old)) }
{
    let value = text_value(alloc, units)?;
    members.put("text", value)?;
    Ok(())
}

/// Puts in hops and a slot.
fn put_aliased(members: &mut Members, hops: u64, slot: u64) -> Result<(), AllocError>
    ensures { OnOk result (members_of members.new ≡ objects.put_aliased hops slot (members_of members.old)) }
{
    members.number("hops", Some(hops))?;
    members.number("slot", Some(slot))?;
    Ok(())
}

/// Puts in the operands of an instruction of this shape that was read at an offset.
fn put_operand(
    members: &mut Members,
    alloc: Global,
    all: &[ScriptNotes],
    texts: &[Text],
    at: usize,
    shape: Shape,
    instr: Instr,
) -> Result<(), AllocError>
    ensures { OnOk result (members_of members.new
        ≡ objects.operand_members all.now instr.op (read_operand texts.now at shape instr) (members_of members.old)) }
{
    match shape {
        Shape::Nothing => (),
        Shape::Whole8 => put_number(members, alloc, all, instr.op, instr.a)?,
        Shape::Whole16 => put_number(members, alloc, all, instr.op, instr.a)?,
        Shape::Whole24 => put_number(members, alloc, all, instr.op, instr.a)?,
        Shape::Whole32 => put_number(members, alloc, all, instr.op, instr.a)?,
        Shape::Whole64 => put_number(members, alloc, all, instr.op, instr.a)?,
        Shape::Atom => put_text(members, alloc, text_at(texts, instr.a))?,
        Shape::Arg => put_number(members, alloc, all, instr.op, instr.a)?,
        Shape::Slot => put_number(members, alloc, all, instr.op, instr.a)?,
        Shape::Aliased => put_aliased(members, instr.a, instr.b)?,
        Shape::Num => put_number(members, alloc, all, instr.op, instr.a)?,
        Shape::Argc => put_number(members, alloc, all, instr.op, instr.a)?,
        Shape::Place => put_number(members, alloc, all, instr.op, instr.a)?,
        Shape::Jump => members.number("to", Some(target_of(at, instr.to)))?,
    }
    Ok(())
}

/// The value of an instruction that was read at an offset.
fn instruction_value(
    alloc: Global,
    all: &[ScriptNotes],
    texts: &[Text],
    notes: &[InstructionNote],
    at: usize,
    instr: Instr,
) -> Result<Value, AllocError>
    ensures { IfOk result (λ value. view value ≡ objects.instruction_data all.now texts.now notes.now (read_as texts.now at instr)) }
{
    let mut members = Members::new(alloc);
    members.number("at", Some(at as u64))?;
    members.text("op", op_name(instr.op))?;
    put_instruction(&mut members, alloc, texts, notes, at)?;
    let shape = instr.op.row().shape;
    put_operand(&mut members, alloc, all, texts, at, shape, instr)?;
    Ok(members.object())
}

/// The values of the whole instructions of a code.
fn instruction_values(
    alloc: Global,
    all: &[ScriptNotes],
    texts: &[Text],
    notes: &[InstructionNote],
    code: &[u8],
) -> Result<Vec<Value>, AllocError>
    ensures { IfOk result (λ values. map view values.items ≡ map (objects.instruction_data all.now texts.now notes.now) (listed texts.now code.now)) }
{
    let mut values = Vec::new(alloc);
    let mut at = 0;
    for _ in 0..code.len() {
        match decode_at(code, at) {
            None => return Ok(values),
            Some(instr) => {
                values.push(instruction_value(alloc, all, texts, notes, at, instr)?)?;
                at = instr.next;
            }
        }
    }
    Ok(values)
}

/// The list of the instructions of a code, with what is said of those at their offsets, and of all functions.
pub(crate) fn code_value(
    alloc: Global,
    all: &[ScriptNotes],
    texts: &[Text],
    notes: &[InstructionNote],
    code: &[u8],
) -> Result<Value, AllocError>
    ensures { IfOk result (λ value. view value ≡ objects.list (map (objects.instruction_data all.now texts.now notes.now) (listed texts.now code.now))) }
{
    let values = instruction_values(alloc, all, texts, notes, code)?;
    Ok(list(values))
}

/// The value of a try note.
fn try_value(alloc: Global, note: TryNote) -> Result<Value, AllocError>
    ensures { IfOk result (λ value. view value ≡ objects.try_data note) }
{
    let mut members = Members::new(alloc);
    members.number("depth", Some(u64::from(note.depth)))?;
    members.number("end", Some(note.end))?;
    members.number("start", Some(note.start))?;
    Ok(members.object())
}

/// The list of try notes.
pub(crate) fn tries_value(alloc: Global, notes: &[TryNote]) -> Result<Value, AllocError>
    ensures { IfOk result (λ value. view value ≡ objects.list (map objects.try_data notes.now)) }
{
    let mut values = Vec::new(alloc);
    for note in notes {
        values.push(try_value(alloc, *note)?)?;
    }
    Ok(list(values))
}
