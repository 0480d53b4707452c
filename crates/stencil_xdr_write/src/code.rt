//! Codes, instruction by instruction.

ghost use Rattle.std.specs.Prelude.{◌≡◌, ◌^◌, ◌<◌, ◌≤◌, OnOk, Some, length, drop, slice_range, option_map};
ghost use Rattle.bytecode_buf.specs.Layout.{decoded, instr_at};
ghost use Rattle.stencil_xdr_laws.specs.Bytes.{IsOfBytes};
ghost use Rattle.stencil_xdr_write.specs.Numbers as numbers;
ghost use Rattle.stencil_xdr_write.specs.Whole as whole;

use crate::sink::Sink;
use bytecode_buf::{Instr, Shape, decode_at};
use std::alloc::AllocError;

/// The bytes from one offset up to another.
fn part_of(code: &[u8], from: usize, to: usize) -> &[u8]
    requires order { from ≤ to }
    requires inside { to ≤ length code.now }
    ensures { result.now ≡ slice_range code.now from to }
{
    &code[from..to]
}

/// Hands an instruction that was read at an offset: its bytes, or its opcode and the text that it names.
fn hand_instruction<S: Sink>(
    code: &[u8],
    at: usize,
    instr: Instr,
    sink: &mut S,
) -> Result<(), AllocError>
    requires { Some instr ≡ option_map (instr_at at) (decoded (drop at code.now)) }
    ensures { OnOk result (S.takes sink.old (numbers.read_items (decoded (drop at code.now))) sink.new) }
{
    match instr.op.row().shape {
        Shape::Atom => {
            sink.number(1, instr.op.byte() as u64)?;
            sink.atom(instr.a)
        }
        _ => sink.bytes(part_of(code, at, instr.next)),
    }
}

fn hand_instructions<S: Sink>(code: &[u8], sink: &mut S) -> Result<(), AllocError>
    ensures { OnOk result (S.takes sink.old (numbers.instructions_items code.now) sink.new) }
{
    let mut at = 0;
    for _ in 0..code.len() {
        match decode_at(code, at) {
            None => return Ok(()),
            Some(instr) => {
                hand_instruction(code, at, instr, sink)?;
                at = instr.next;
            }
        }
    }
    Ok(())
}

/// How many bytes the whole instructions are that a code begins with.
fn whole_length(code: &[u8]) -> usize
    ensures { result ≡ length (whole.whole_code code.now) }
{
    let mut at = 0;
    for _ in 0..code.len() {
        match decode_at(code, at) {
            None => return at,
            Some(instr) => at = instr.next,
        }
    }
    at
}

/// Hands the length of the whole instructions of a code, and the instructions.
pub(crate) fn hand_code<S: Sink>(code: &[u8], sink: &mut S) -> Result<(), AllocError>
    ensures taken { OnOk result (S.takes sink.old (whole.code_items code.now) sink.new) }
    ensures fit { OnOk result (length code.now < 2 ^ 64) }
    ensures bytes { OnOk result (IsOfBytes code.now) }
{
    sink.number(8, whole_length(code) as u64)?;
    hand_instructions(code, sink)
}
