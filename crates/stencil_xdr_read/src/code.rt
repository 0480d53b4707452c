//! Whether a code is whole instructions in range, but for its atoms; and its atoms.

ghost use Rattle.std.specs.Prelude.{◌≡◌, ℕ, ◌↔◌, ◌+◌, ◌++◌, length, IsTrue, OnOk};
ghost use Rattle.std.specs.Int.{cast_unsigned, w64};
ghost use Rattle.bytecode_buf.specs.InRange.{LambdaWithin, JumpWithin};
ghost use Rattle.stencil_xdr_read.specs.Within as within;
ghost use Rattle.stencil_xdr_read.specs.Atoms as atoms;

use bytecode_buf::{Instr, Op, Shape, decode_at};
use std::alloc::AllocError;

/// Whether the operand of a `Lambda` is the number of one of n functions.
fn is_lambda_within(functions: usize, op: Op, number: u64) -> bool
    ensures { IsTrue result ↔ LambdaWithin op number functions }
{
    match op {
        Op::Lambda => 1 <= number && number <= functions as u64,
        _ => true,
    }
}

/// Whether a jump at an offset goes to an offset of a code of this size.
fn is_jump_within(size: usize, at: usize, shape: Shape, distance: i64) -> bool
    ensures { IsTrue result ↔ JumpWithin shape at (cast_unsigned w64 distance) size }
{
    match shape {
        Shape::Jump => (at as u64).wrapping_add(distance.cast_unsigned()) <= size as u64,
        _ => true,
    }
}

/// Whether an instruction that was read at an offset is in range.
fn is_instruction_within(functions: usize, size: usize, at: usize, instr: Instr) -> bool
    ensures { IsTrue result ↔ within.ReadWithin functions size at instr }
{
    is_lambda_within(functions, instr.op, instr.a)
        && is_jump_within(size, at, instr.op.row().shape, instr.to)
}

/// Whether a code is whole instructions in range.
pub(crate) fn is_code_within(functions: usize, code: &[u8]) -> bool
    ensures { IsTrue result ↔ within.CodeWithin functions code.now }
{
    let mut at = 0;
    for _ in 0..code.len() {
        match decode_at(code, at) {
            None => return at == code.len(),
            Some(instr) => {
                let fits = is_instruction_within(functions, code.len(), at, instr);
                if !fits {
                    return false;
                }
                at = instr.next;
            }
        }
    }
    at == code.len()
}

/// Appends the atom of an instruction that was read, if it has one.
fn append_atom(out: &mut Vec<u64>, instr: Instr) -> Result<(), AllocError>
    ensures { OnOk result (out.new.items ≡ out.old.items ++ atoms.read_atoms instr) }
{
    match instr.op.row().shape {
        Shape::Atom => {
            out.push(instr.a)?;
            Ok(())
        }
        _ => Ok(()),
    }
}

/// Appends the atoms of the whole instructions of a code.
pub(crate) fn append_code(out: &mut Vec<u64>, code: &[u8]) -> Result<(), AllocError>
    ensures { OnOk result (out.new.items ≡ out.old.items ++ atoms.code_atoms code.now) }
{
    let mut at = 0;
    for _ in 0..code.len() {
        match decode_at(code, at) {
            None => return Ok(()),
            Some(instr) => {
                append_atom(out, instr)?;
                at = instr.next;
            }
        }
    }
    Ok(())
}
