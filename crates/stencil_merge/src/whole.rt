//! A script's parts and functions of it, merged at once.

ghost use Rattle.std.specs.Prelude.{◌+◌, ◌-◌, ◌^◌, ◌<◌, length, IfOk};
ghost use Rattle.stencil_merge.specs.Whole.{HaveNumbers, Merges, text_count};

use crate::merger::Merger;
use std::alloc::{AllocError, Global};
use stencil_data::{FunctionStencil, InitialParts, MergedStencil, Text};

/// A function that was compiled alone, and its number in the script, from 1. Its atoms are indexes into `texts`.
#[derive(Drop)]
pub struct CompiledAlone {
    pub number: u32,
    pub stencil: FunctionStencil,
    pub texts: Vec<Text>,
}

/// The merged stencil of a script's parts, in which exactly these functions are compiled, in whatever order they come: of equal
/// numbers the first one counts. Time is linear in all parts. Only memory can fail.
pub fn merge(
    alloc: Global,
    parts: &InitialParts,
    functions: &[CompiledAlone],
) -> Result<MergedStencil, AllocError>
    requires texts { length parts.now.texts + text_count functions.now < 2 ^ 32 - 1 }
    requires records { length parts.now.records < 2 ^ 32 }
    requires numbers { HaveNumbers (length parts.now.records) functions.now }
    ensures { IfOk result (Merges parts.now functions.now) }
{
    let mut merger = Merger::new(alloc, parts)?;
    for function in functions {
        merger.add(alloc, function.number, &function.stencil, &function.texts)?;
    }
    Ok(merger.finish())
}
