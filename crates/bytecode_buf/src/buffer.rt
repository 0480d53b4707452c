// Code that grows by instructions.
ghost use Rattle.std.specs.Prelude.{◌≡◌, ℕ, ◌+◌, ◌^◌, ◌<◌, ◌≤◌, ◌∷◌, ◌++◌, [], List, length, true, false, OnOk, OnErr, IfOk, IsTrue, ◌↔◌};
ghost use Rattle.bytecode_buf.specs.Bytes.{le_bytes, written};
ghost use Rattle.bytecode_buf.specs.Layout.{laid, distance_bits};
ghost use Rattle.bytecode_buf.specs.Table.{number_of};
ghost use Rattle.bytecode_buf.specs.Width.{first_of, second_of, is_jump};

use crate::little_endian::write_number;
use crate::opcode::{Op, Shape};
use std::alloc::{AllocError, Global};
use std::marker::Model;

/// Code: contracts see the list of its bytes.
#[derive(Drop)]
pub struct CodeBuf {
    bytes: Vec<u8>,
}

impl Model for CodeBuf {
    ghost use Rattle.std.specs.Prelude.{ℕ, List};

    ghost Value = { List ℕ };

    ghost view = { λ c. c.bytes.items };
}

// The byte of an opcode, and after it all bytes of a number, of which an operand has as many as its width says.
#[inline]
fn piece(op: Op, a: u64) -> [u8; 9]
    ensures { result ≡ number_of op ∷ le_bytes 8 a }
{
    [
        op.byte(),
        (a % 256) as u8,
        (a / 256 % 256) as u8,
        (a / 256 / 256 % 256) as u8,
        (a / 256 / 256 / 256 % 256) as u8,
        (a / 256 / 256 / 256 / 256 % 256) as u8,
        (a / 256 / 256 / 256 / 256 / 256 % 256) as u8,
        (a / 256 / 256 / 256 / 256 / 256 / 256 % 256) as u8,
        (a / 256 / 256 / 256 / 256 / 256 / 256 / 256 % 256) as u8,
    ]
}

// The byte of an opcode, and after it the hops and the slot of an aliased operand.
fn aliased_piece(op: Op, hops: u64, slot: u64) -> [u8; 6]
    ensures { result ≡ number_of op ∷ le_bytes 2 hops ++ le_bytes 3 slot }
{
    [
        op.byte(),
        (hops % 256) as u8,
        (hops / 256 % 256) as u8,
        (slot % 256) as u8,
        (slot / 256 % 256) as u8,
        (slot / 256 / 256 % 256) as u8,
    ]
}

impl CodeBuf {
    /// Code without an instruction. It takes no memory.
    pub fn new(alloc: Global) -> CodeBuf
        ensures { result ≡ [] }
    {
        CodeBuf {
            bytes: Vec::new(alloc),
        }
    }

    /// The number of bytes.
    pub fn len(&self) -> usize
        ensures { result ≡ length self.now }
    {
        self.bytes.len()
    }

    /// Whether no instruction was appended.
    pub fn is_empty(&self) -> bool
        ensures { IsTrue result ↔ (self.now ≡ []) }
    {
        self.bytes.is_empty()
    }

    /// The bytes, without room for more. It takes no memory.
    pub fn into_bytes(self) -> Vec<u8>
        ensures { result.items ≡ self }
    {
        let CodeBuf { mut bytes } = self;
        bytes.shrink_to_fit();
        bytes
    }

    // Appends the byte of an opcode and its operands, all of them or nothing.
    fn append(&mut self, op: Op, a: u64, b: u64) -> Result<(), AllocError>
        ensures ok { OnOk result (self.new ≡ self.old ++ laid (record { op = op; a = a; b = b })) }
        ensures err { OnErr result (self.new ≡ self.old) }
    {
        let shape = op.shape();
        if let Shape::Aliased = shape {
            return self.bytes.extend_from_slice(&aliased_piece(op, a, b));
        }
        self.bytes
            .extend_from_slice(&piece(op, a)[..1 + shape.first_width()])
    }

    /// Appends an instruction that is no jump, whose operands fit their widths. `b` is the slot of an
    /// aliased operand, else 0; `a` is 0 where there is no operand.
    pub fn put(&mut self, op: Op, a: u64, b: u64) -> Result<(), AllocError>
        requires plain { is_jump op ≡ false }
        requires first { a < 256 ^ first_of op }
        requires second { b < 256 ^ second_of op }
        ensures ok { OnOk result (self.new ≡ self.old ++ laid (record { op = op; a = a; b = b })) }
        ensures err { OnErr result (self.new ≡ self.old) }
    {
        self.append(op, a, b)?;
        Ok(())
    }

    /// Appends a jump with distance 0 and answers its offset.
    pub fn jump(&mut self, op: Op) -> Result<usize, AllocError>
        requires { is_jump op ≡ true }
        ensures ok { OnOk result (self.new ≡ self.old ++ laid (record { op = op; a = 0; b = 0 })) }
        ensures offset { IfOk result (λ at. at ≡ length self.old) }
        ensures err { OnErr result (self.new ≡ self.old) }
    {
        let at = self.len();
        self.append(op, 0, 0)?;
        Ok(at)
    }

    /// Sets the distance of the jump at `jump`, so that it goes to `target`. It takes no memory.
    pub fn patch(&mut self, jump: usize, target: usize)
        requires whole { jump + 9 ≤ length self.old }
        requires target { target ≤ length self.old }
        ensures { self.new ≡ written (jump + 1) (le_bytes 8 (distance_bits jump target)) self.old }
    {
        let distance = (target as u64).wrapping_sub(jump as u64);
        write_number(&mut self.bytes, jump + 1, 8, distance);
    }
}
