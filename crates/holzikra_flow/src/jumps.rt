//! Where control comes from: the jumps and try notes that lead to each offset of a code.

use crate::step::target_of;
use bytecode_buf::decode_at;
use std::alloc::{AllocError, Global};
use stencil_data::FunctionStencil;

/// What leads to an offset.
#[derive(Clone, Copy)]
pub enum Origin {
    /// The jump at this offset.
    Jump(u64),
    /// A throw inside of a try note.
    Catch,
}

/// That something leads to the offset `to`.
#[derive(Clone, Copy)]
pub struct Arrival {
    pub to: u64,
    pub from: Origin,
}

/// All jumps and all try notes of a function's code, by rising offset to which they lead; those that lead to one offset in the
/// order in which they stand, jumps first. It takes time in proportion to the code, and to their number up to a logarithm.
pub fn arrivals(alloc: Global, part: &FunctionStencil) -> Result<Vec<Arrival>, AllocError> {
    let code = part.code.as_slice();
    let mut found = Vec::new(alloc);
    let mut at = 0;
    for _ in 0..code.len() {
        let Some(instr) = decode_at(code, at) else {
            break;
        };
        if instr.op.is_jump() {
            found.push(Arrival {
                to: target_of(at, instr.to),
                from: Origin::Jump(at as u64),
            })?;
        }
        at = instr.next;
    }
    for note in &part.notes {
        found.push(Arrival {
            to: note.end,
            from: Origin::Catch,
        })?;
    }
    found.sort_by_key(|arrival| arrival.to)?;
    Ok(found)
}
