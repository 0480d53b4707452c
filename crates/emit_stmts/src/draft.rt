// Code in the making, with what it is made beside.

use bytecode_buf::CodeBuf;
use stencil_data::TryNote;

/// Code in the making: its try notes, and the number of the next scope.
#[derive(Drop)]
pub struct Draft {
    pub code: CodeBuf,
    pub notes: Vec<TryNote>,
    pub next: usize,
}
