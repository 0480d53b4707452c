//! What is printed for files, and whether one of them is refused.

ghost use Rattle.std.specs.Prelude.{◌≡◌, false, true, IfOk};
ghost use Rattle.session_specs.specs.Refusals.{refusal_line};
ghost use Rattle.compile_session.specs.Answers.{refusal_of};
ghost use Rattle.compile_session.specs.Printed.{texts_in};

use crate::lines::refusal_text;
use crate::refusal::Refusal;
use session_output::OutputText;
use std::alloc::{AllocError, Global};

/// The text that is printed for a file, and whether it is refused.
#[derive(Drop)]
pub struct FileAnswer {
    pub text: OutputText,
    pub refused: bool,
    /// How many functions it shows compiled.
    pub compiled: u64,
}

/// What is printed for files, one after another, and whether one of them is refused.
#[derive(Drop)]
pub struct WholeAnswer {
    pub files: Vec<FileAnswer>,
    pub refused: bool,
    /// How many functions it shows compiled.
    pub compiled: u64,
}

/// What is printed for a command, and what was compiled for that.
#[derive(Drop)]
pub(crate) struct CommandAnswer {
    pub answer: WholeAnswer,
    /// How many functions workers compiled, each as often as it was compiled.
    pub compiled: u64,
}

/// The answer for a file that is refused.
pub(crate) fn refused(alloc: Global, name: &str, why: Refusal) -> Result<FileAnswer, AllocError>
    ensures text { IfOk result (λ answer. answer.text ≡ refusal_line name.now (refusal_of why)) }
    ensures refused { IfOk result (λ answer. answer.refused ≡ true) }
    ensures idle { IfOk result (λ answer. answer.compiled ≡ 0) }
{
    let text = refusal_text(alloc, name, why)?;
    Ok(FileAnswer {
        text: OutputText::of_bytes(text),
        refused: true,
        compiled: 0,
    })
}

/// The answer that is one line and shows so many functions compiled.
pub(crate) fn one_line(
    alloc: Global,
    line: Vec<u8>,
    compiled: u64,
) -> Result<WholeAnswer, AllocError>
    ensures text { IfOk result (λ answer. texts_in answer.files.items ≡ line.items) }
    ensures fine { IfOk result (λ answer. answer.refused ≡ false) }
    ensures count { IfOk result (λ answer. answer.compiled ≡ compiled) }
{
    let mut files = Vec::new(alloc);
    files.push(FileAnswer {
        text: OutputText::of_bytes(line),
        refused: false,
        compiled,
    })?;
    Ok(WholeAnswer {
        files,
        refused: false,
        compiled,
    })
}
