//! Code with other atoms, in which functions are named by their numbers.

ghost use Rattle.std.specs.Prelude.{◌≡◌, ◌+◌, ◌<◌, ◌^◌, drop, length, option_map, slice_index_or, IfOk, Some};
ghost use Rattle.bytecode_buf.specs.Layout.{IsWhole, decoded, decoded_as};
ghost use Rattle.stencil_merge.specs.Instructions as instructions;
ghost use Rattle.stencil_merge.specs.Instructions.{AreInstructionsBy, IsCodeBy, made_number, new_operand, step_at};

use crate::atoms::atom_at;
use bytecode_buf::{Instr, Op, Shape, decode_at, renumber};
use std::alloc::{AllocError, Global};

/// What is read of an instruction to pass over it.
#[derive(Clone, Copy)]
pub(crate) struct Step {
    pub op: Op,
    pub shape: Shape,
    /// The offset after it.
    pub next: usize,
}

// The number at a place among these, or 0.
fn number_at(numbers: &[u32], place: usize) -> u32
    ensures { result ≡ slice_index_or numbers.now place 0 }
{
    match numbers.get(place) {
        Some(number) => *number,
        None => 0,
    }
}

// The number of the function that an instruction makes, where it makes one.
fn made(instr: Instr, numbers: &[u32]) -> Option<u32>
    ensures { result ≡ made_number numbers.now instr.op instr.a }
{
    match instr.op {
        Op::Lambda => Some(number_at(numbers, instr.a as usize)),
        _ => None,
    }
}

// What an instruction has in place of its operand, where it has something else.
fn changed(instr: Instr, atoms: &[u32], numbers: &[u32]) -> Option<u32>
    ensures { result ≡ new_operand atoms.now numbers.now instr.op instr.a }
{
    match instr.op.row().shape {
        Shape::Atom => Some(atom_at(atoms, instr.a as usize)),
        _ => made(instr, numbers),
    }
}

// The step over the instruction at an offset, if one is read there. Operands are not read.
fn step_over(code: &[u8], at: usize) -> Option<Step>
    ensures { result ≡ option_map (step_at at) (decoded (drop at code.now)) }
{
    let rest = code.get(at..)?;
    let (byte, behind) = rest.split_first()?;
    let op = Op::of_byte(*byte)?;
    step_of(op, at, behind)
}

// The step over the instruction of this opcode at an offset, whose operands are at the beginning of the bytes after it.
fn step_of(op: Op, at: usize, behind: &[u8]) -> Option<Step>
    requires { at + 1 + length behind.now < 2 ^ 64 }
    ensures { result ≡ option_map (step_at at) (decoded_as (Some op) behind.now) }
{
    let shape = op.row().shape;
    let width = shape.first_width() + shape.second_width();
    if behind.len() < width {
        return None;
    }
    Some(Step {
        op,
        shape,
        next: at + (1 + width),
    })
}

// Whether an instruction of this opcode makes a function.
fn makes_function(op: Op) -> bool
    ensures { result ≡ instructions.makes_function op }
{
    match op {
        Op::Lambda => true,
        _ => false,
    }
}

// Whether the operand of such an instruction is the number of a text or of a function.
fn is_numbered(step: Step) -> bool
    ensures { result ≡ instructions.is_numbered step.op step.shape }
{
    match step.shape {
        Shape::Atom => true,
        _ => makes_function(step.op),
    }
}

// Puts these atoms, and these numbers of functions, into code. It takes no memory.
fn renumber_code(code: &mut [u8], atoms: &[u32], numbers: &[u32])
    ensures are { AreInstructionsBy atoms.now numbers.now code.old code.new }
    ensures whole { IsWhole code.old → IsWhole code.new }
{
    let mut at = 0;
    while let Some(step) = step_over(code, at) {
        if is_numbered(step) {
            if let Some(instr) = decode_at(code, at) {
                if let Some(operand) = changed(instr, atoms, numbers) {
                    renumber(code, at, u64::from(operand));
                }
            }
        }
        at = step.next;
    }
}

/// A copy of the code with these atoms and these numbers of functions.
pub(crate) fn code_by(
    alloc: Global,
    atoms: &[u32],
    numbers: &[u32],
    code: &[u8],
) -> Result<Vec<u8>, AllocError>
    ensures { IfOk result (λ made. IsCodeBy atoms.now numbers.now code.now made.items) }
{
    let mut made = Vec::from_slice(alloc, code)?;
    renumber_code(&mut made, atoms, numbers);
    Ok(made)
}
