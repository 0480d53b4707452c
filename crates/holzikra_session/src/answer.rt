//! The command `check`, for one text: judged, counted, and what is said of it.

ghost use Rattle.std.specs.Prelude.{IfOk};
ghost use Rattle.holzikra_session.specs.Statuses.{IsCounted};
ghost use Rattle.holzikra_session.specs.declared.verdict.Verdict.{Verdict as AnyVerdict};

use crate::json;
use crate::refusal::{Said, Showing, answer_refused};
use crate::status::Tally;
use crate::verdict::{Judge, Verdict};
use holzikra_words::{CheckOptions, Format};
use std::alloc::{AllocError, Global};

/// The line for a script without errors; none but for JSON.
fn script_line(
    alloc: Global,
    options: &CheckOptions,
    name: &str,
    text: &[u8],
    functions: usize,
) -> Result<String, AllocError> {
    match options.format {
        Format::Json => json::script_line(alloc, name, text, functions),
        Format::Human | Format::Github | Format::Sarif => Ok(String::new(alloc)),
    }
}

/// Judges a text and counts it. The answer is what is to be written of it.
pub(crate) fn answer_text<J: Judge>(
    alloc: Global,
    judge: &J,
    options: &CheckOptions,
    name: &str,
    text: &[u8],
    tally: &mut Tally,
    said: &mut Said,
) -> Result<String, AllocError>
    ensures { IfOk result (λ _. (verdict : AnyVerdict) × J.judges judge.now text.now verdict
        × IsCounted options.now.unsupported verdict tally.old tally.new) }
{
    let verdict = judge.judge(alloc, text)?;
    match verdict {
        Verdict::Script(functions) => {
            tally.count(verdict, false, options.unsupported);
            let line = script_line(alloc, options, name, text, functions)?;
            Ok(line)
        }
        Verdict::Refused(reason) => {
            let showing = Showing::of_check(options);
            let lines = answer_refused(alloc, showing, name, text, reason, tally, said)?;
            Ok(lines)
        }
    }
}
