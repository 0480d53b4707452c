//! A text that is refused: counted, and shown.

ghost use Rattle.std.specs.Prelude.{◌≡◌, length, IfOk, string_bytes};
ghost use Rattle.holzikra_words.specs.declared.check.Unsupported.TheVariants as counting;
ghost use Rattle.holzikra_session.specs.Answers.{IsShownAs, MayBeShownAs};
ghost use Rattle.holzikra_session.specs.Statuses.{IsCounted};
ghost use Rattle.holzikra_session.specs.declared.verdict.Verdict.TheVariants as verdict;

use crate::status::Tally;
use crate::verdict::{Reason, Verdict};
use crate::{github, human, json, sarif};
use holzikra_refusals::{Code, shown_code};
use holzikra_words::{CheckOptions, Format, Unsupported};
use std::alloc::{AllocError, Global};

/// How refusals are shown, and which count.
#[derive(Clone, Copy)]
pub(crate) struct Showing {
    pub(crate) format: Format,
    pub(crate) unsupported: Unsupported,
    /// How many are shown, where there is a limit.
    pub(crate) most: Option<u32>,
}

/// What was said so far.
#[derive(Drop)]
pub(crate) struct Said {
    /// How many refusals were shown.
    pub(crate) shown: u64,
    /// Their codes, each once.
    pub(crate) codes: Vec<Code>,
}

/// A text that is refused, and how it is shown.
#[derive(Clone, Copy)]
pub(crate) struct Refused<'a> {
    /// What it is called.
    pub(crate) name: &'a str,
    pub(crate) text: &'a [u8],
    pub(crate) reason: Reason,
    pub(crate) code: Code,
}

/// The code that is shown for a reason.
pub(crate) fn code_of(reason: Reason, text: &[u8]) -> Code {
    let exact = reason.exact_code();
    match reason.spot() {
        None => exact,
        Some(spot) => shown_code(exact, text, spot.offset),
    }
}

impl Showing {
    /// As the words of `check` ask for.
    pub(crate) fn of_check(options: &CheckOptions) -> Showing
        ensures { result.unsupported ≡ options.now.unsupported }
    {
        Showing {
            format: options.format,
            unsupported: options.unsupported,
            most: options.most,
        }
    }

    /// All of them, in this form.
    pub(crate) fn all(format: Format) -> Showing
        ensures { result.unsupported ≡ counting.Error }
    {
        Showing {
            format,
            unsupported: Unsupported::Error,
            most: None,
        }
    }
}

impl Said {
    pub(crate) fn new(alloc: Global) -> Said {
        Said {
            shown: 0,
            codes: Vec::new(alloc),
        }
    }

    /// Whether one more refusal with this code is shown; if so, it is counted.
    fn shows(&mut self, showing: Showing, code: Code) -> Result<bool, AllocError> {
        if code.is_unsupported() && showing.unsupported == Unsupported::Skip {
            return Ok(false);
        }
        if let Some(most) = showing.most {
            if self.shown >= u64::from(most) {
                return Ok(false);
            }
        }
        self.shown = self.shown.saturating_add(1);
        if !self.codes.as_slice().contains(&code) {
            self.codes.push(code)?;
        }
        Ok(true)
    }
}

/// The lines for a text that is refused, which may be the first one that is shown.
fn refused_lines(
    alloc: Global,
    format: Format,
    refused: Refused<'_>,
    first: bool,
) -> Result<String, AllocError>
    ensures { IfOk result (λ lines. IsShownAs format refused.entry.name.now (length refused.entry.text.now) refused.entry.reason (string_bytes lines)) }
{
    match format {
        Format::Human => human::refusal_lines(alloc, refused),
        Format::Json => {
            let line = json::refusal_line(alloc, refused)?;
            Ok(line)
        }
        Format::Github => github::refusal_line(alloc, refused),
        Format::Sarif => sarif::refusal_result(alloc, refused, first),
    }
}

/// Counts a text that is refused for this reason. The answer is what is to be written of it.
pub(crate) fn answer_refused(
    alloc: Global,
    showing: Showing,
    name: &str,
    text: &[u8],
    reason: Reason,
    tally: &mut Tally,
    said: &mut Said,
) -> Result<String, AllocError>
    ensures counted { IfOk result (λ _. IsCounted showing.unsupported (verdict.Refused reason) tally.old tally.new) }
    ensures shown { IfOk result (λ lines. MayBeShownAs showing.format name.now (length text.now) reason (string_bytes lines)) }
{
    let code = code_of(reason, text);
    tally.count(
        Verdict::Refused(reason),
        code.is_unsupported(),
        showing.unsupported,
    );
    if !said.shows(showing, code)? {
        return Ok(String::new(alloc));
    }
    let refused = Refused {
        name,
        text,
        reason,
        code,
    };
    let lines = refused_lines(alloc, showing.format, refused, said.shown == 1)?;
    Ok(lines)
}
