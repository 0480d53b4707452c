//! All counts of a script.

ghost use Rattle.std.specs.Prelude.{◌≡◌, length, IfOk};
ghost use Rattle.holzikra_stats.specs.Counts as counts;

use crate::nesting::nesting_of;
use crate::sums::{bytes_of, closed_of, code_instructions, instructions_of};
use std::alloc::{AllocError, Global};
use stencil_data::MergedStencil;

/// The counts of a script.
#[derive(Clone, Copy)]
pub struct Counts {
    /// The functions in it, at any depth.
    pub functions: usize,
    /// The names that inner functions close over.
    pub closed: u128,
    /// The instructions of all code that is compiled.
    pub instructions: u128,
    /// The bytes of that code.
    pub bytes: u128,
    /// How deep functions are nested: 1 where functions stand only in the script itself, 0 where there are none.
    pub nested: u32,
}

/// The counts of a script. It takes time in proportion to the code, and is an error only where memory runs out.
pub fn counts_of(alloc: Global, merged: &MergedStencil) -> Result<Counts, AllocError>
    ensures functions { IfOk result (λ c. c.functions ≡ length merged.now.records) }
    ensures closed { IfOk result (λ c. c.closed ≡ counts.closed_count merged.now) }
    ensures instructions { IfOk result (λ c. c.instructions ≡ counts.instruction_count merged.now) }
    ensures bytes { IfOk result (λ c. c.bytes ≡ counts.byte_count merged.now) }
{
    let nested = nesting_of(alloc, merged)?;
    Ok(Counts {
        functions: merged.records.len(),
        closed: closed_of(&merged.records),
        instructions: code_instructions(&merged.top.code) as u128
            + instructions_of(&merged.entries),
        bytes: merged.top.code.len() as u128 + bytes_of(&merged.entries),
        nested,
    })
}
