//! The targets of a code, by number.

use bytecode_buf::decode_at;
use std::alloc::{AllocError, Global};
use stencil_data::FunctionStencil;

/// The offsets to which jumps lead, and those between which a throw is caught and to which it leads, by rising offset. A target has
/// the number of its place among them, from 1.
#[derive(Drop)]
pub(crate) struct Labels {
    targets: Vec<u64>,
}

/// The offset to which a jump at an offset leads.
pub(crate) fn target_of(at: usize, distance: i64) -> u64 {
    (at as u64).wrapping_add(distance.cast_unsigned())
}

/// All targets of a code, as often as they are one.
fn all_targets(alloc: Global, part: &FunctionStencil) -> Result<Vec<u64>, AllocError> {
    let code = part.code.as_slice();
    let mut targets = Vec::new(alloc);
    let mut at = 0;
    for _ in 0..code.len() {
        let Some(instr) = decode_at(code, at) else {
            break;
        };
        if instr.op.is_jump() {
            targets.push(target_of(at, instr.to))?;
        }
        at = instr.next;
    }
    for note in &part.notes {
        targets.push(note.start)?;
        targets.push(note.end)?;
    }
    Ok(targets)
}

impl Labels {
    pub(crate) fn of(alloc: Global, part: &FunctionStencil) -> Result<Labels, AllocError> {
        let mut all = all_targets(alloc, part)?;
        all.sort()?;
        let mut targets = Vec::new(alloc);
        for target in &all {
            if targets.last() != Some(target) {
                targets.push(*target)?;
            }
        }
        Ok(Labels { targets })
    }

    /// The number of an offset among the targets, if it is one.
    pub(crate) fn number(&self, offset: u64) -> Option<usize> {
        let place = self.targets.partition_point(|target| *target < offset);
        if self.targets.get(place) == Some(&offset) {
            Some(place.saturating_add(1))
        } else {
            None
        }
    }
}
