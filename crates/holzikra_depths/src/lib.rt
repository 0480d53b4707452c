//! How deep the stacks of a script's code get.
//!
//! It stands on the verifier (code_check), below the program for people.
//!
//! The main contract: [`depth_of`] answers the verifier's verdict on a part of a merged stencil.
#![tactic(auto)]

ghost use Rattle.std.specs.Prelude.{IfOk};
ghost use Rattle.holzikra_depths.specs.Depths.{IsDepth, IsEntryDepth};

use code_check::{Verdict, verify_code};
use std::alloc::{AllocError, Global};
use stencil_data::{Entry, FunctionStencil, MergedStencil};

/// How many values the stack of a part has at most, where its code is sound.
pub fn depth_of(alloc: Global, part: &FunctionStencil) -> Result<Option<u64>, AllocError>
    ensures { IfOk result (λ depth. IsDepth part.now depth) }
{
    match verify_code(alloc, &part.code, &part.notes)? {
        Verdict::Sound { depth } => Ok(Some(depth)),
        Verdict::Unsound => Ok(None),
    }
}

fn entry_depth(alloc: Global, entry: &Entry) -> Result<Option<u64>, AllocError>
    ensures { IfOk result (λ depth. IsEntryDepth entry.now depth) }
{
    match entry {
        Entry::Lazy => Ok(None),
        Entry::Compiled(part) => depth_of(alloc, part),
    }
}

/// The depths of the script, as function 0, and of all functions, in order of number: none where a function is not compiled, or
/// where its code is not sound. It takes time in proportion to the code, up to a logarithm, and is an error only where memory runs
/// out.
pub fn depths_of(alloc: Global, merged: &MergedStencil) -> Result<Vec<Option<u64>>, AllocError> {
    let mut depths = Vec::new(alloc);
    depths.push(depth_of(alloc, &merged.top)?)?;
    for entry in &merged.entries {
        depths.push(entry_depth(alloc, entry)?)?;
    }
    Ok(depths)
}
