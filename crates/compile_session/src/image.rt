//! What is printed for a file that is taken as an image.

ghost use Rattle.std.specs.Prelude.{◌≡◌, IfOk};
ghost use Rattle.session_specs.specs.Answer.{RefusedAs};
ghost use Rattle.session_specs.specs.Refusals as line;
ghost use Rattle.session_words.specs.Asked.{Wanted};
ghost use Rattle.session_words.specs.declared.options.Command.TheVariants as command;
ghost use Rattle.stencil_xdr_read.specs.declared.fault.ImageFault.TheVariants.{NoImage};
ghost use Rattle.compile_session.specs.Answers.{IsAnswerFor};

use crate::answer::{FileAnswer, refused};
use crate::lines::file_text;
use crate::refusal::Refusal;
use session_images::{ImageFault, append_listing, append_verdicts};
use session_output::OutputText;
use std::alloc::{AllocError, Global};

/// The answer for a file of which no image was read, for this reason.
fn unread(alloc: Global, name: &str, fault: ImageFault) -> Result<FileAnswer, AllocError>
    ensures refused { IfOk result (λ answer. (fault ≡ NoImage) × RefusedAs name.now line.NoImage answer.text answer.refused) }
    ensures idle { IfOk result (λ answer. answer.compiled ≡ 0) }
{
    match fault {
        ImageFault::NoImage => {
            let answer = refused(alloc, name, Refusal::NoImage)?;
            Ok(answer)
        }
        ImageFault::NoMemory => Err(AllocError),
    }
}

/// What `load` prints for a file with these bytes.
pub(crate) fn load_answer(alloc: Global, name: &str, bytes: &[u8]) -> Result<FileAnswer, AllocError>
    ensures is { IfOk result (λ answer. (want : Wanted) → IsAnswerFor command.Load want name.now bytes.now answer) }
    ensures idle { IfOk result (λ answer. answer.compiled ≡ 0) }
{
    let mut text = file_text(alloc, name)?;
    match append_listing(alloc, &mut text, bytes) {
        Ok(()) => Ok(FileAnswer {
            text: OutputText::of_bytes(text),
            refused: false,
            compiled: 0,
        }),
        Err(fault) => unread(alloc, name, fault),
    }
}

/// What `verify` prints for a file with these bytes. It is refused where the code of a script in it is unsound.
pub(crate) fn verify_answer(
    alloc: Global,
    name: &str,
    bytes: &[u8],
) -> Result<FileAnswer, AllocError>
    ensures is { IfOk result (λ answer. (want : Wanted) → IsAnswerFor command.Verify want name.now bytes.now answer) }
    ensures idle { IfOk result (λ answer. answer.compiled ≡ 0) }
{
    let mut text = file_text(alloc, name)?;
    match append_verdicts(alloc, &mut text, bytes) {
        Ok(unsound) => Ok(FileAnswer {
            text: OutputText::of_bytes(text),
            refused: unsound,
            compiled: 0,
        }),
        Err(fault) => unread(alloc, name, fault),
    }
}
