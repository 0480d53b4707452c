//! How many instructions a code has.

ghost use Rattle.std.specs.Prelude.{◌≡◌, length};
ghost use Rattle.bytecode_buf.specs.Layout as layout;

use bytecode_buf::decode_at;

/// The number of the whole instructions of a code.
pub(crate) fn count_instructions(code: &[u8]) -> usize
    ensures { result ≡ length (layout.instructions code.now) }
{
    let mut count = 0;
    let mut at = 0;
    for _ in 0..code.len() {
        match decode_at(code, at) {
            None => return count,
            Some(instr) => {
                count += 1;
                at = instr.next;
            }
        }
    }
    count
}
