//! What a file of source text is, read without trees: a script without errors, or refused.

ghost use Rattle.std.specs.Prelude.{ℕ, ◌≤◌, List, length, IfOk};
ghost use Rattle.script_grammar.specs.Tree.{Stmts};
ghost use Rattle.session_specs.specs.Answer.{most_bytes};
ghost use Rattle.session_specs.specs.Sources.{IsValid};
ghost use Rattle.session_words.specs.Asked as asked;
ghost use Rattle.compile_first_pass.specs.Passes.{IsSyntaxOf};
ghost use Rattle.compile_session.specs.Answers.{IsSourceText, IsSourceVerdict};

use crate::listing::missing_of;
use crate::refusal::Refusal;
use compile_first_pass::{FileVerdict, FirstPass, SyntaxScript, check_file, first_pass};
use parse_skim_handler::Skimming;
use session_words::Want;
use std::alloc::{AllocError, Global};

/// What a file of source text is: a script without errors, of which all functions that are wanted are there, or why it is
/// refused.
#[derive(Drop)]
pub enum SourceText {
    Script(SyntaxScript),
    Refused(Refusal),
}

/// What a script without errors is, where these functions are wanted.
fn script_text(want: &Want, script: SyntaxScript) -> SourceText
    ensures { (bytes : List ℕ) → IsSyntaxOf bytes script → IsSourceText (asked.wanted want.now) bytes result }
{
    match missing_of(want, script.functions.len()) {
        None => SourceText::Script(script),
        Some(number) => SourceText::Refused(Refusal::NoFunction { number }),
    }
}

/// What a file with these bytes is, where these functions are wanted.
pub(crate) fn read_source(
    alloc: Global,
    want: &Want,
    bytes: &[u8],
) -> Result<SourceText, AllocError>
    requires short { length bytes.now ≤ most_bytes }
    ensures { IfOk result (IsSourceText (asked.wanted want.now) bytes.now) }
{
    let pass = first_pass(alloc, Skimming::new(alloc), bytes)?;
    match pass {
        FirstPass::Script(script) => Ok(script_text(want, script)),
        FirstPass::Refused(fault) => Ok(SourceText::Refused(Refusal::Source(fault))),
    }
}

/// What checking a file of source text comes to.
#[derive(Clone, Copy)]
pub(crate) enum SourceVerdict {
    /// It is a script without errors of so many functions, and all that are wanted are among them.
    Fine { functions: usize },
    Refused(Refusal),
}

/// What checking a script without errors of so many functions comes to, where these are wanted.
fn script_verdict(want: &Want, functions: usize) -> SourceVerdict
    ensures { (bytes : List ℕ) (items : Stmts) → IsValid bytes items functions → IsSourceVerdict (asked.wanted want.now) bytes result }
{
    match missing_of(want, functions) {
        None => SourceVerdict::Fine { functions },
        Some(number) => SourceVerdict::Refused(Refusal::NoFunction { number }),
    }
}

/// What checking a file with these bytes comes to, where these functions are wanted.
pub(crate) fn check_source(
    alloc: Global,
    want: &Want,
    bytes: &[u8],
) -> Result<SourceVerdict, AllocError>
    requires short { length bytes.now ≤ most_bytes }
    ensures { IfOk result (IsSourceVerdict (asked.wanted want.now) bytes.now) }
{
    let verdict = check_file(alloc, Skimming::new(alloc), bytes)?;
    match verdict {
        FileVerdict::Script { functions } => Ok(script_verdict(want, functions)),
        FileVerdict::Refused(fault) => Ok(SourceVerdict::Refused(Refusal::Source(fault))),
    }
}
