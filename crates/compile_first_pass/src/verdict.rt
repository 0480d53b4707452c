//! Whether a file is a script without errors, where nobody reads it further: its tokens are let go of as soon as it is read,
//! and the names that inner functions close over are not looked for.

ghost use Rattle.std.specs.Prelude.{◌≡◌, ◌≤◌, ℕ, List, length, IfOk};
ghost use Rattle.parse_script.specs.Tokens.{AreTokensOf, IsSound};
ghost use Rattle.compile_first_pass.specs.Passes.{IsVerdict};

use crate::pass::{ListedScript, SourceFault, list_skimmed, read_file};
use crate::skim::{Skims, skim};
use early_script_errors::first_early_error;
use parse_script::{FileTokens, tokens_of};
use parse_track::region::WellKnownAtoms;
use std::alloc::{AllocError, Global};
use unit_text::DecodeFault;

/// What checking a file comes to.
#[derive(Clone, Copy, Debug)]
pub enum FileVerdict {
    /// It is a script without errors.
    Script {
        /// How many functions it has.
        functions: usize,
    },
    Refused(SourceFault),
}

/// The atoms of the known words. All else of the file is let go of.
fn known_of(file: FileTokens) -> WellKnownAtoms
    ensures { result ≡ file.known }
{
    file.known
}

/// What checking the tokens of a file comes to.
fn check_over<H: Skims + Drop>(
    alloc: Global,
    handler: H,
    file: FileTokens,
) -> Result<FileVerdict, AllocError>
    requires sound { IsSound file }
    requires few { length file.tokens.items ≤ 16777216 }
    ensures { IfOk result (λ verdict. (bytes : List ℕ) → AreTokensOf file (length bytes) bytes → IsVerdict bytes verdict) }
{
    let script = match read_file(alloc, handler, &file)? {
        Ok(script) => script,
        Err(fault) => return Ok(FileVerdict::Refused(fault)),
    };
    let known = known_of(file);
    let skimmed = skim::<H>(alloc, script)?;
    let listed = list_skimmed(alloc, skimmed)?;
    let ListedScript {
        top,
        bodies,
        functions,
        first,
    } = listed;
    match first_early_error(alloc, known, top, bodies, first)? {
        None => Ok(FileVerdict::Script {
            functions: functions.len(),
        }),
        Some(early) => Ok(FileVerdict::Refused(SourceFault::Early {
            offset: early.offset,
            rule: early.rule,
        })),
    }
}

/// Reads the script of a file as [`first_pass`](crate::first_pass) does, and answers no more than how many functions it has, or why
/// there is none. Takes time and memory in proportion to the bytes, and less of both than `first_pass`.
pub fn check_file<H: Skims + Drop>(
    alloc: Global,
    handler: H,
    bytes: &[u8],
) -> Result<FileVerdict, AllocError>
    requires { length bytes.now ≤ 16777215 }
    ensures { IfOk result (IsVerdict bytes.now) }
{
    match tokens_of(alloc, bytes) {
        Ok(file) => Ok(check_over(alloc, handler, file)?),
        Err(DecodeFault::BadUtf8 { offset }) => {
            Ok(FileVerdict::Refused(SourceFault::BadUtf8 { offset }))
        }
        Err(DecodeFault::NoMemory) => Err(AllocError),
    }
}
