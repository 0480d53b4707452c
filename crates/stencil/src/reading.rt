//! Texts, read without trees.

ghost use Rattle.std.specs.Prelude.{IfOk};
ghost use Rattle.session_words.specs.Asked as asked;
ghost use Rattle.compile_first_pass.specs.Passes.{IsSyntaxOf};
ghost use Rattle.stencil.specs.Answers.{IsAnswer, IsChecked};

use crate::MOST_BYTES;
use crate::answers::{Answer, Refusal, refused_for};
use compile_first_pass::{FirstPass, SyntaxScript, first_pass};
use parse_skim_handler::Skimming;
use std::alloc::{AllocError, Global};

/// The script that a text is, read without trees.
pub(crate) fn read_text(alloc: Global, text: &[u8]) -> Result<Answer<SyntaxScript>, AllocError>
    ensures { IfOk result (IsAnswer asked.All text.now (IsSyntaxOf text.now)) }
{
    if text.len() > MOST_BYTES {
        return Ok(Answer::Refused(Refusal::TooLong));
    }
    let pass = first_pass(alloc, Skimming::new(alloc), text)?;
    match pass {
        FirstPass::Script(script) => Ok(Answer::Script(script)),
        FirstPass::Refused(fault) => Ok(Answer::Refused(refused_for(fault))),
    }
}

/// How many functions the script has that this text is, or why it is refused. Takes time and memory in proportion to the bytes,
/// and compiles nothing.
pub fn check(alloc: Global, text: &[u8]) -> Result<Answer<usize>, AllocError>
    ensures { IfOk result (IsChecked text.now) }
{
    let read = read_text(alloc, text)?;
    match read {
        Answer::Script(script) => Ok(Answer::Script(script.functions.len())),
        Answer::Refused(why) => Ok(Answer::Refused(why)),
    }
}
