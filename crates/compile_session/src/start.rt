//! A file of source text after its first pass.

ghost use Rattle.std.specs.Prelude.{◌≡◌, IfOk};
ghost use Rattle.session_outside.specs.Loops.{HasAtMost};
ghost use Rattle.session_specs.specs.Answer.{most_bytes};
ghost use Rattle.session_words.specs.Asked as asked;
ghost use Rattle.compile_first_pass.specs.Passes.{IsSyntaxOf};
ghost use Rattle.compile_session.specs.Answers.{IsScriptOf};
ghost use Rattle.compile_session.specs.Starts.{IsScriptStart, IsStart};

use crate::listing::wanted_of;
use crate::refusal::Refusal;
use crate::source::{SourceText, read_source};
use compile_first_pass::SyntaxScript;
use compile_initial::{InitialStencil, initial};
use compile_shown::flags_of;
use session_words::Want;
use std::alloc::{AllocError, Global};

/// A file of source text after its first pass: a script none of whose functions is compiled, or refused.
#[derive(Drop)]
pub enum FileStart {
    Script(ScriptStart),
    Refused(Refusal),
}

/// A script before any of its functions is compiled.
#[derive(Drop)]
pub struct ScriptStart {
    pub initial: InitialStencil,
    /// Of each function whether it is shown compiled.
    pub shown: Vec<bool>,
}

/// What a script is before any of its functions is compiled, and which of them are shown where these are wanted.
pub(crate) fn script_start(
    alloc: Global,
    want: &Want,
    bytes: &[u8],
    script: SyntaxScript,
) -> Result<ScriptStart, AllocError>
    requires { IsScriptOf (asked.wanted want.now) bytes.now script }
    ensures { IfOk result (IsScriptStart (asked.wanted want.now) bytes.now) }
{
    let initial = initial(alloc, script, bytes.len() as u32)?;
    let shown = flags_of(alloc, &initial, wanted_of(want))?;
    Ok(ScriptStart { initial, shown })
}

/// The first pass over a file with these bytes, or over one with which there are too many.
pub(crate) fn start_of(
    alloc: Global,
    want: &Want,
    bytes: &Option<Vec<u8>>,
) -> Result<FileStart, AllocError>
    requires within { HasAtMost most_bytes bytes.now }
    ensures { IfOk result (IsStart (asked.wanted want.now) bytes.now) }
{
    let Some(bytes) = bytes else {
        return Ok(FileStart::Refused(Refusal::TooLong));
    };
    let source = read_source(alloc, want, bytes)?;
    match source {
        SourceText::Script(script) => {
            let start = script_start(alloc, want, bytes, script)?;
            Ok(FileStart::Script(start))
        }
        SourceText::Refused(why) => Ok(FileStart::Refused(why)),
    }
}
