//! Answers for a person.

use crate::note::other_place;
use crate::refusal::{Refused, Said};
use crate::status::Tally;
use crate::verdict::{Spot, Verified};
use holzikra_places::{excerpt_at, push_shown_text};
use holzikra_refusals::{Code, entry_of, message};
use holzikra_scripts::Table;
use std::alloc::{AllocError, Global};

/// Appends the name of a file and a place in it.
fn push_spot(lines: &mut String, name: &str, spot: Spot) -> Result<(), AllocError> {
    push_shown_text(lines, name)?;
    let line = spot.place.line;
    let column = spot.place.column;
    write!(lines, ":{line}:{column}")
}

/// The place, what is wrong, and the line with a mark under the place; and the same of another place that the refusal speaks of.
pub(crate) fn refusal_lines(alloc: Global, refused: Refused<'_>) -> Result<String, AllocError> {
    let mut lines = String::new(alloc);
    match refused.reason.spot() {
        None => {
            push_shown_text(&mut lines, refused.name)?;
            push_what(alloc, &mut lines, refused)?;
        }
        Some(spot) => {
            push_spot(&mut lines, refused.name, spot)?;
            push_what(alloc, &mut lines, refused)?;
            push_line(alloc, &mut lines, refused.text, spot)?;
        }
    }
    if let Some(other) = other_place(alloc, refused)? {
        push_spot(&mut lines, refused.name, other.spot)?;
        let words = other.words;
        write!(lines, ": note: {words}\n")?;
        push_line(alloc, &mut lines, refused.text, other.spot)?;
    }
    Ok(lines)
}

/// Appends what is wrong.
fn push_what(alloc: Global, lines: &mut String, refused: Refused<'_>) -> Result<(), AllocError> {
    let kind = if refused.code.is_unsupported() {
        "unsupported"
    } else {
        "error"
    };
    let words = message(alloc, refused.code, refused.text, refused.reason.offset())?;
    let code = entry_of(refused.code).code;
    write!(lines, ": {kind}: {words} [{code}]\n")
}

/// Appends the line of a place, and a mark under the place.
fn push_line(alloc: Global, lines: &mut String, text: &[u8], spot: Spot) -> Result<(), AllocError> {
    let excerpt = excerpt_at(alloc, text, spot.offset)?;
    let line = spot.place.line;
    let number = format!(in alloc; "{line:>3}")?;
    push_marked(
        lines,
        number.as_str(),
        excerpt.shown.as_str(),
        excerpt.caret,
    )
}

/// Appends a line behind its number, and under it a mark that stands behind so many of its characters.
fn push_marked(
    lines: &mut String,
    number: &str,
    shown: &str,
    caret: usize,
) -> Result<(), AllocError> {
    lines.push_str(number)?;
    lines.push_str(" | ")?;
    lines.push_str(shown)?;
    lines.push('\n')?;
    push_blanks(lines, number.len())?;
    lines.push_str(" | ")?;
    push_blanks(lines, caret)?;
    lines.push_str("^\n")
}

fn push_blanks(lines: &mut String, count: usize) -> Result<(), AllocError> {
    for _ in 0..count {
        lines.push(' ')?;
    }
    Ok(())
}

/// A count with its noun.
fn push_count(lines: &mut String, count: u64, one: &str, many: &str) -> Result<(), AllocError> {
    let noun = if count == 1 { one } else { many };
    write!(lines, "{count} {noun}")
}

/// Appends how many files there are, of which so many are refused, and what they are.
fn push_verdicts(line: &mut String, tally: &Tally, refusals: u64) -> Result<(), AllocError> {
    let scripts = tally.scripts;
    let outside = tally.outside;
    push_count(line, scripts.saturating_add(refusals), "file", "files")?;
    write!(line, ": {scripts} ok, ")?;
    push_count(line, tally.errors, "with an error", "with errors")?;
    write!(line, ", {outside} unsupported")
}

/// Appends how many of the refusals were not shown, if some were not.
fn push_hidden(line: &mut String, shown: u64, refusals: u64) -> Result<(), AllocError> {
    if shown >= refusals {
        return Ok(());
    }
    let hidden = refusals.saturating_sub(shown);
    write!(line, ", {hidden} not shown")
}

/// Appends where to read on about the codes that were shown, if some were.
fn push_codes(line: &mut String, codes: &[Code]) -> Result<(), AllocError> {
    if codes.is_empty() {
        return Ok(());
    }
    line.push_str(" (`holzikra explain")?;
    for code in codes {
        line.push(' ')?;
        line.push_str(entry_of(*code).code)?;
    }
    line.push_str("`)")
}

/// The counts of all files, and where to read on.
pub(crate) fn summary(alloc: Global, tally: &Tally, said: &Said) -> Result<String, AllocError> {
    let refusals = tally.errors.saturating_add(tally.outside);
    let mut line = String::new(alloc);
    push_verdicts(&mut line, tally, refusals)?;
    push_hidden(&mut line, said.shown, refusals)?;
    push_codes(&mut line, &said.codes)?;
    line.push('\n')?;
    Ok(line)
}

/// What bytes are that were taken as an image.
pub(crate) fn image_line(alloc: Global, name: &str, found: Verified) -> Result<String, AllocError> {
    let mut line = String::new(alloc);
    push_shown_text(&mut line, name)?;
    match found {
        Verified::Sound { functions, depth } => {
            write!(line, ": sound, depth {depth}, ")?;
            let scripts = (functions as u64).saturating_add(1);
            push_count(&mut line, scripts, "script", "scripts")?;
            line.push('\n')?;
        }
        Verified::Unsound { script } => write!(line, ": script {script}: unsound\n")?,
        Verified::NoImage => line.push_str(": no image\n")?,
    }
    Ok(line)
}

/// The table of counts; and for a person who wants a summary what all files have together, and how many are refused.
pub(crate) fn table(
    alloc: Global,
    table: &Table,
    tally: &Tally,
    quiet: bool,
) -> Result<String, AllocError> {
    if quiet {
        return table.text(None);
    }
    let refused = tally.errors.saturating_add(tally.outside);
    let mut last = String::new(alloc);
    push_count(&mut last, table.count() as u64, "file", "files")?;
    let mut lines = table.text(Some(last.as_str()))?;
    if refused > 0 {
        push_count(&mut lines, refused, "file", "files")?;
        lines.push_str(" refused\n")?;
    }
    Ok(lines)
}
