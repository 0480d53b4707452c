// Instructions as they are read from bytes.
ghost use Rattle.std.specs.Prelude.{◌≡◌, ◌^◌, ◌+◌, ◌<◌, ◌≤◌, length, option_map, Some, drop};
ghost use Rattle.bytecode_buf.specs.Bytes.{le_bytes, le_value, written};
ghost use Rattle.bytecode_buf.specs.Layout.{decoded, decoded_as, instr_at, instr_by, BeginsNumbered, LayoutIsReadBack, ReadsLaid, renumbered};

use crate::little_endian::{read_number, write_number};
use crate::opcode::Op;

/// An instruction. A field that the opcode does not use is 0.
#[derive(Clone, Copy)]
pub struct Instr {
    pub op: Op,
    /// The operand of an opcode that is no jump; the hops of an aliased one.
    pub a: u64,
    /// The slot of an aliased operand.
    pub b: u64,
    /// The distance of a jump, its target less its own offset.
    pub to: i64,
    /// The offset after the instruction.
    pub next: usize,
}

#[inline]
fn make_instr(op: Op, is_jump: bool, a: u64, b: u64, next: usize) -> Instr
    ensures { result ≡ instr_by is_jump op a b next }
{
    let plain = Instr {
        op,
        a,
        b,
        to: 0,
        next,
    };
    if is_jump {
        Instr {
            a: 0,
            b: 0,
            to: a.cast_signed(),
            ..plain
        }
    } else {
        plain
    }
}

// The number of the bytes of a second operand, which most instructions have none of.
#[inline]
fn read_second(bytes: &[u8]) -> u64
    requires { length bytes.now ≤ 8 }
    ensures { result ≡ le_value bytes.now }
{
    if bytes.is_empty() {
        0
    } else {
        read_number(bytes)
    }
}

// The instruction of this opcode at `at`, its operands being at the beginning of the bytes after it.
#[inline]
fn read_instr(op: Op, at: usize, behind: &[u8]) -> Option<Instr>
    requires { at + 1 + length behind.now < 2 ^ 64 }
    ensures { result ≡ option_map (instr_at at) (decoded_as (Some op) behind.now) }
{
    let shape = op.shape();
    let first = shape.first_width();
    let second = shape.second_width();
    if behind.len() < first + second {
        return None;
    }
    let a = read_number(&behind[..first]);
    let b = read_second(&behind[first..first + second]);
    Some(make_instr(op, shape.is_jump(), a, b, at + (1 + first + second)))
}

#[inline]
fn read_at(code: &[u8], at: usize) -> Option<Instr>
    ensures { result ≡ option_map (instr_at at) (decoded (drop at code.now)) }
{
    let rest = code.get(at..)?;
    let (byte, behind) = rest.split_first()?;
    let op = Op::of_byte(*byte)?;
    read_instr(op, at, behind)
}

/// The instruction at a place. `None` comes exactly where the byte there is no opcode's or the
/// instruction is cut off, which is also so at the end and past it.
#[inline]
pub fn decode_at(code: &[u8], at: usize) -> Option<Instr>
    ensures value { result ≡ option_map (instr_at at) (decoded (drop at code.now)) }
    ensures laid { ReadsLaid code.now at result }
    ensures layout { LayoutIsReadBack }
{
    read_at(code, at)
}

/// Puts another number of a text or a thing into the instruction at `at`, and leaves all other bytes.
pub fn renumber(code: &mut [u8], at: usize, a: u64)
    requires numbered { BeginsNumbered (drop at code.old) }
    requires fits { a < 2 ^ 32 }
    ensures bytes { code.new ≡ written (at + 1) (le_bytes 4 a) code.old }
    ensures operand { decoded (drop at code.new) ≡ option_map (renumbered a) (decoded (drop at code.old)) }
{
    write_number(code, at + 1, 4, a);
}
