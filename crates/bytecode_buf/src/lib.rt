//! Opcodes as bytes: the table of the 120 opcodes, a buffer to which instructions are appended, and
//! the way back from bytes to instructions.
//!
//! It stands below the emitters, which append code, and below everything that reads code: merging,
//! printing, images and the verifier. An instruction is a byte and its operands, little-endian; a jump
//! has 64 bits, its target less its own offset.
//!
//! The main contract: what `put` and `jump` append is the layout of one instruction, and `decode_at`
//! answers the definition `decoded` of the bytes at a place, which reads laid out instructions back
//! (`layout_is_read_back` of proofs/ReadBack.antt). `specs/Verdicts.antt` says which code is sound; code_check finds out.
#![tactic(auto)]

mod buffer;
mod instruction;
mod little_endian;
mod opcode;
mod waits;

pub use buffer::CodeBuf;
pub use instruction::{Instr, decode_at, renumber};
pub use opcode::{Count, OPS, Op, OpRow, Shape};
pub use waits::{Aim, Wait, jump_to, land, target, turn};
