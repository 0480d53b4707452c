//! Whether code never takes from an empty stack and never leaves its instructions.

ghost use Rattle.std.specs.Prelude.{◌≡◌, option_copied, IfOk, IfErr, IfSome, IsSome, Some};
ghost use Rattle.std.specs.List.Sorted.{IsNonDecreasingBy};
ghost use Rattle.bytecode_buf.specs.Machine as machine;
ghost use Rattle.code_check.specs.Parts.{part_of};
ghost use Rattle.code_check.specs.Survey.{HasNoTable, StopsFor, depth_at};
ghost use Rattle.code_check.specs.Verdicts.{IsNeverStuck, soundness};
ghost use Rattle.bytecode_buf.specs.Verdicts.{IsGreatest, IsVerified};

use crate::note_index::{NoteIndex, sorted_notes};
use crate::starts::instruction_starts;
use crate::survey::{Stop, Survey};
use crate::verdict::Verdict;
use std::alloc::{AllocError, Global};
use stencil_data::{Entry, FunctionStencil, MergedStencil, TryNote};

/// The least depth table, by notes of rising depth: the depths at the offsets of the code.
fn least_table(alloc: Global, code: &[u8], notes: &[TryNote]) -> Result<Vec<Option<u64>>, Stop>
    requires { IsNonDecreasingBy (λ note. note.depth) notes.now }
    ensures ok { IfOk result (λ depths. machine.IsLeastTable code.now notes.now (depth_at depths.items)) }
    ensures err { IfErr result (λ stop. StopsFor stop (HasNoTable code.now notes.now)) }
{
    let starts = instruction_starts(alloc, code)?;
    let mut index = NoteIndex::new(alloc, notes, code.len())?;
    let mut survey = Survey::new(alloc, code.len())?;
    survey.arrive(&starts, 0, 0)?;
    survey.search(&mut index, code, notes, &starts)?;
    Ok(survey.into_depths())
}

/// The greatest of depths of which the first is 0.
fn greatest(depths: &[Option<u64>]) -> u64
    requires { depth_at depths.now 0 ≡ Some 0 }
    ensures { IsGreatest (depth_at depths.now) result }
{
    let mut most = 0;
    for depth in depths {
        most = most.max(depth.unwrap_or(0));
    }
    most
}

/// Whether code never takes from an empty stack and never leaves its instructions, in any number of steps, where a throw
/// may go to the ends of these try notes.
///
/// It is `Sound` exactly where a depth table exists, which gives some offsets one depth each, and then with the greatest
/// depth of the least table, before or after an instruction. It is an error only where memory runs out.
pub fn verify_code(alloc: Global, code: &[u8], notes: &[TryNote]) -> Result<Verdict, AllocError>
    ensures verdict { IfOk result (λ v. IsVerified code.now notes.now (soundness v)) }
    ensures free { IfOk result (λ v. IsNeverStuck code.now notes.now v) }
{
    let sorted = sorted_notes(alloc, notes)?;
    match least_table(alloc, code, &sorted) {
        Ok(depths) => Ok(Verdict::Sound {
            depth: greatest(&depths),
        }),
        Err(Stop::Unsound) => Ok(Verdict::Unsound),
        Err(Stop::NoMemory) => Err(AllocError),
    }
}

/// The part of a merged stencil that has this number, where it is compiled.
fn part_of(merged: &MergedStencil, index: u32) -> Option<&FunctionStencil>
    ensures { option_copied result ≡ part_of merged.now index }
{
    if index == 0 {
        return Some(&merged.top);
    }
    match merged.entries.get(index as usize - 1) {
        Some(Entry::Compiled(part)) => Some(part),
        _ => None,
    }
}

/// [`verify_code`] for the part of a merged stencil that has this number: 0 is the top, every other number that of a
/// function, which has to be compiled.
pub fn verify(alloc: Global, merged: &MergedStencil, index: u32) -> Result<Verdict, AllocError>
    requires part { IsSome (part_of merged.now index) }
    ensures verdict { IfOk result (λ v. IfSome (part_of merged.now index) (λ part. IsVerified part.code part.notes (soundness v))) }
    ensures free { IfOk result (λ v. IfSome (part_of merged.now index) (λ part. IsNeverStuck part.code part.notes v)) }
{
    match part_of(merged, index) {
        Some(part) => verify_code(alloc, &part.code, &part.notes),
        None => unreachable!(),
    }
}
