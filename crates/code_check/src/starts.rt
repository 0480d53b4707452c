//! Where the instructions of code start.

ghost use Rattle.std.specs.Prelude.{IfOk};
ghost use Rattle.code_check.specs.Survey.{AreStarts};

use bytecode_buf::decode_at;
use std::alloc::{AllocError, Global};

/// Whether an instruction starts there, for each offset of the code.
pub(crate) fn instruction_starts(alloc: Global, code: &[u8]) -> Result<Vec<bool>, AllocError>
    ensures { IfOk result (λ starts. AreStarts code.now starts.items) }
{
    let mut starts = vec![in alloc; false; code.len()]?;
    let mut at = 0;
    while let Some(instr) = decode_at(code, at) {
        starts[at] = true;
        at = instr.next;
    }
    Ok(starts)
}
