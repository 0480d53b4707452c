//! Answers as workflow commands of GitHub.

use crate::refusal::Refused;
use holzikra_refusals::{entry_of, message};
use std::alloc::{AllocError, Global};

/// Appends a text in which the characters that end a command, or a property of it, are written as `%0A`.
fn push_escaped(into: &mut String, text: &str, property: bool) -> Result<(), AllocError> {
    for c in text.chars() {
        match c {
            '%' => into.push_str("%25")?,
            '\r' => into.push_str("%0D")?,
            '\n' => into.push_str("%0A")?,
            ':' if property => into.push_str("%3A")?,
            ',' if property => into.push_str("%2C")?,
            _ => into.push(c)?,
        }
    }
    Ok(())
}

/// The command for a text that is refused.
pub(crate) fn refusal_line(alloc: Global, refused: Refused<'_>) -> Result<String, AllocError> {
    let spot = refused.reason.spot();
    let mut line = String::new(alloc);
    let kind = if refused.code.is_unsupported() {
        "warning"
    } else {
        "error"
    };
    write!(line, "::{kind} file=")?;
    push_escaped(&mut line, refused.name, true)?;
    if let Some(spot) = spot {
        let row = spot.place.line;
        let column = spot.place.column;
        write!(line, ",line={row},col={column}")?;
    }
    let code = entry_of(refused.code).code;
    write!(line, ",title={code}::")?;
    let words = message(alloc, refused.code, refused.text, refused.reason.offset())?;
    push_escaped(&mut line, words.as_str(), false)?;
    line.push('\n')?;
    Ok(line)
}
