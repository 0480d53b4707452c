//! The lines of a source text, and of a listing.

use crate::escape::append_text;
use crate::frame::{append_all, append_numbers};
use holzikra_places::{Lines, push_shown_text};
use std::alloc::{AllocError, Global};

/// Appends a line of the source with its number.
fn append_line(
    alloc: Global,
    out: &mut Vec<u8>,
    file: usize,
    number: usize,
    line: &[u8],
) -> Result<(), AllocError> {
    append_numbers(
        out,
        &[
            ("<tr id=\"f", file),
            ("l", number),
            ("\"><td class=\"n\">", number),
        ],
    )?;
    append_all(out, &["</td><td>"])?;
    let text = String::from_utf8_lossy(alloc, without_end(line))?;
    let mut shown = String::new(alloc);
    push_shown_text(&mut shown, text.as_str())?;
    append_text(out, shown.as_bytes())?;
    append_all(out, &["</td></tr>\n"])
}

/// A line without its end (ECMA-262, clause 12.3).
fn without_end(line: &[u8]) -> &[u8] {
    match line {
        [front @ .., b'\r', b'\n'] => front,
        [front @ .., b'\n' | b'\r'] => front,
        [front @ .., 0xe2, 0x80, 0xa8 | 0xa9] => front,
        _ => line,
    }
}

/// Appends the lines of a source text, each with its number.
pub(crate) fn append_source(
    alloc: Global,
    out: &mut Vec<u8>,
    file: usize,
    text: &[u8],
) -> Result<(), AllocError> {
    let lines = Lines::of(alloc, text)?;
    append_all(out, &["<table class=\"source\">\n"])?;
    for (index, start) in lines.starts.iter().enumerate() {
        let number = index.saturating_add(1);
        let end = lines.starts.get(number).copied().unwrap_or(text.len());
        let line = text.get(*start..end).unwrap_or(&[]);
        append_line(alloc, out, file, number, line)?;
    }
    append_all(out, &["</table>\n"])
}

/// The number that a line which starts a script begins with, behind the word `script`.
fn script_number(line: &[u8]) -> Option<usize> {
    let words = line.strip_prefix(b"script ")?;
    let mut number = 0usize;
    for byte in words {
        if !byte.is_ascii_digit() {
            break;
        }
        let digit = usize::from(byte.saturating_sub(b'0'));
        number = number.saturating_mul(10).saturating_add(digit);
    }
    Some(number)
}

/// Appends a listing, the lines of each script in a part of their own.
pub(crate) fn append_listing(
    out: &mut Vec<u8>,
    file: usize,
    listing: &[u8],
) -> Result<(), AllocError> {
    let mut open = false;
    for line in listing.split_inclusive(|byte| *byte == b'\n') {
        if let Some(number) = script_number(line) {
            if open {
                append_all(out, &["</pre>\n"])?;
            }
            append_numbers(out, &[("<pre id=\"f", file), ("n", number)])?;
            append_all(out, &["\">"])?;
            open = true;
        }
        if open {
            append_text(out, line)?;
        }
    }
    if open {
        append_all(out, &["</pre>\n"])?;
    }
    Ok(())
}
