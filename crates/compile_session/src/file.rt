//! What is printed for one file, by a command that shows no scripts.

ghost use Rattle.std.specs.Prelude.{◌≡◌, ◌<◌, ◌^◌, false, IfOk};
ghost use Rattle.session_outside.specs.Loops.{HasAtMost};
ghost use Rattle.session_specs.specs.Answer.{most_bytes};
ghost use Rattle.session_specs.specs.Compiled.{shows_scripts};
ghost use Rattle.session_words.specs.Asked as asked;
ghost use Rattle.compile_session.specs.Answers.{CountsRead, SettlesRead};

use crate::answer::{FileAnswer, refused};
use crate::image::{load_answer, verify_answer};
use crate::printing::check_answer;
use crate::refusal::Refusal;
use session_words::{Command, FileJob};
use std::alloc::{AllocError, Global};

/// The most bytes that the files of a command may have together.
pub(crate) const MOST_BYTES: usize = 16777215;

/// What is printed for a file with these bytes, or for one with which there are too many.
pub(crate) fn answer_of(
    alloc: Global,
    job: &FileJob,
    name: &str,
    bytes: &Option<Vec<u8>>,
) -> Result<FileAnswer, AllocError>
    requires plain { shows_scripts job.now.command ≡ false }
    requires within { HasAtMost most_bytes bytes.now }
    ensures settles { IfOk result (SettlesRead (asked.job job.now) name.now bytes.now) }
    ensures few { IfOk result (λ answer. answer.compiled < 2 ^ 24) }
    ensures counts { IfOk result (λ answer. CountsRead (asked.job job.now) bytes.now answer.compiled) }
{
    let Some(bytes) = bytes else {
        return refused(alloc, name, Refusal::TooLong);
    };
    match job.command {
        Command::Load => {
            let answer = load_answer(alloc, name, bytes)?;
            Ok(answer)
        }
        Command::Verify => {
            let answer = verify_answer(alloc, name, bytes)?;
            Ok(answer)
        }
        Command::Check => {
            let answer = check_answer(alloc, &job.want, name, bytes)?;
            Ok(answer)
        }
        Command::Code | Command::Scopes | Command::Save => unreachable!(),
    }
}
