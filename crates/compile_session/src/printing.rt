//! What is printed for a file of source text.

ghost use Rattle.std.specs.Prelude.{◌≡◌, ◌≤◌, ◌<◌, ◌^◌, true, length, IfOk};
ghost use Rattle.bytecode_buf.specs.InRange.{TextsSmall};
ghost use Rattle.session_specs.specs.Answer.{most_bytes};
ghost use Rattle.session_specs.specs.Compiled.{shows_scripts};
ghost use Rattle.session_words.specs.declared.options.Command.TheVariants as command;
ghost use Rattle.session_words.specs.Asked as asked;
ghost use Rattle.compile_session.specs.Answers.{IsAnswerFor};
ghost use Rattle.compile_session.specs.Listed.{IsWrittenFor};

use crate::answer::{FileAnswer, refused};
use crate::lines::{file_text, fine_text};
use crate::listing::listing_of;
use crate::source::{SourceVerdict, check_source};
use session_output::OutputText;
use session_words::{Command, Want};
use std::alloc::{AllocError, Global};
use stencil_data::MergedStencil;
use stencil_xdr_write::write_image;

/// What a command that shows scripts writes of a stencil: its image, or its listing.
pub(crate) fn shown_text(
    alloc: Global,
    command: Command,
    name: &str,
    shown: MergedStencil,
) -> Result<OutputText, AllocError>
    requires command { shows_scripts command ≡ true }
    requires few { length shown.texts < 2 ^ 31 }
    requires small { TextsSmall shown.texts }
    ensures { IfOk result (IsWrittenFor command name.now shown) }
{
    match command {
        Command::Save => {
            let image = write_image(alloc, &shown)?;
            Ok(OutputText::of_bytes(image))
        }
        _ => {
            let head = file_text(alloc, name)?;
            Ok(OutputText::of_listing(head, listing_of(command), shown))
        }
    }
}

/// What `check` prints for a file with these bytes.
pub(crate) fn check_answer(
    alloc: Global,
    want: &Want,
    name: &str,
    bytes: &[u8],
) -> Result<FileAnswer, AllocError>
    requires short { length bytes.now ≤ most_bytes }
    ensures is { IfOk result (IsAnswerFor command.Check (asked.wanted want.now) name.now bytes.now) }
    ensures idle { IfOk result (λ answer. answer.compiled ≡ 0) }
{
    let verdict = check_source(alloc, want, bytes)?;
    match verdict {
        SourceVerdict::Fine { functions } => {
            let text = fine_text(alloc, name, functions)?;
            Ok(FileAnswer {
                text: OutputText::of_bytes(text),
                refused: false,
                compiled: 0,
            })
        }
        SourceVerdict::Refused(why) => {
            let answer = refused(alloc, name, why)?;
            Ok(answer)
        }
    }
}
