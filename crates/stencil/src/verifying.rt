//! Whether all code of a stencil may run.

ghost use Rattle.std.specs.Prelude.{IfOk};
ghost use Rattle.bytecode_buf.specs.Verdicts.{IsVerified};
ghost use Rattle.code_check.specs.Verdicts.{soundness};
ghost use Rattle.emit_depth_laws.specs.Accepted.{AllAccepted, EntryAccepted, IsAccepted};
ghost use Rattle.stencil.specs.Verified.{IsEntryVerdict, IsFine, IsFineVerdict, IsVerdictOf, NeverStuck};

use code_check::{Verdict, verify_code};
use std::alloc::{AllocError, Global};
use stencil_data::{Entry, FunctionStencil, MergedStencil};

/// Whether all code of a stencil can run without ever taking from an empty stack or leaving its instructions.
#[derive(Debug, Clone, Copy, PartialEq, Eq)]
pub enum Soundness {
    /// It can. The stack of no code ever has more than `depth` values, and that of one has n at times.
    Sound { depth: u64 },
    /// That of this script cannot: 0 is the top, every other number that of a function. It is the first one.
    Unsound { script: usize },
}

/// Whether the code of a compiled function or script is sound.
fn verify_part(alloc: Global, part: &FunctionStencil) -> Result<Verdict, AllocError>
    ensures verdict { IfOk result (λ v. IsVerified part.now.code part.now.notes (soundness v)) }
    ensures accepted { IfOk result (λ v. IsAccepted part.now → IsFineVerdict v) }
{
    verify_code(alloc, &part.code, &part.notes)
}

/// Whether the code of a function is sound; one that is not compiled has none.
fn verify_entry(alloc: Global, entry: &Entry) -> Result<Verdict, AllocError>
    ensures verdict { IfOk result (IsEntryVerdict entry.now) }
    ensures accepted { IfOk result (λ v. EntryAccepted entry.now → IsFineVerdict v) }
{
    match entry {
        Entry::Lazy => Ok(Verdict::Sound { depth: 0 }),
        Entry::Compiled(part) => verify_part(alloc, part),
    }
}

/// Whether all code of a stencil is sound, wherever it comes from. Time and memory are those of code_check for each code in turn.
pub fn verify(alloc: Global, stencil: &MergedStencil) -> Result<Soundness, AllocError>
    ensures verdict { IfOk result (IsVerdictOf stencil.now) }
    ensures free { IfOk result (NeverStuck stencil.now) }

    // So it is of each stencil that `compile` answers.
    ensures accepted { IfOk result (λ soundness. AllAccepted stencil.now → IsFine soundness) }
{
    let mut deepest = match verify_part(alloc, &stencil.top)? {
        Verdict::Sound { depth } => depth,
        Verdict::Unsound => return Ok(Soundness::Unsound { script: 0 }),
    };
    for place in 0..stencil.entries.len() {
        match verify_entry(alloc, &stencil.entries[place])? {
            Verdict::Sound { depth } => deepest = deepest.max(depth),
            Verdict::Unsound => return Ok(Soundness::Unsound { script: place + 1 }),
        }
    }
    Ok(Soundness::Sound { depth: deepest })
}
