//! The instructions of a code, one after another.

ghost use Rattle.std.specs.Prelude.{◌≡◌};
ghost use Rattle.std.specs.Iterator.{YieldsFirst, item_count};
ghost use Rattle.stencil.specs.Code.{instructions_from, instructions_in};

use bytecode_buf::{Instr, decode_at};

/// The whole instructions of a code from an offset on, each with its own offset.
#[derive(Clone, Copy)]
pub struct CodeIter<'a> {
    /// The code.
    pub code: &'a [u8],
    /// Where the next one starts.
    pub at: usize,
}

/// The whole instructions of a code, one after another from its first byte, each with its offset. They end where the code ends, or
/// at a byte that is no opcode's, or at an instruction that is cut off. Takes no memory.
pub fn instructions(code: &[u8]) -> CodeIter<'_>
    ensures { instructions_from result.code.now result.at ≡ instructions_in code.now }
{
    CodeIter { code, at: 0 }
}

impl Iterator for CodeIter<'_> {
    type Item = (usize, Instr);

    ghost next_gives = { YieldsFirst (λ s. instructions_from s.code.now s.at) };

    ghost remaining = { item_count (λ s. instructions_from s.code.now s.at) };

    fn next(&mut self) -> Option<(usize, Instr)> {
        let at = self.at;
        match decode_at(self.code, at) {
            None => None,
            Some(instr) => {
                self.at = instr.next;
                Some((at, instr))
            }
        }
    }
}
