//! The rows of the table: a text and its tokens.
use crate::shown::{plain_text, shown};
use anyhow::{Context, Result};
use std::alloc::Global;

/// Scans the text of each row and compares its tokens.
pub fn try_rows<R: Print + Input>(rt: &R, alloc: Global) -> Result<()> {
    let mut rows = 0u32;
    let mut wrong = 0u32;
    for line in rt.lines(alloc) {
        let line = line?;
        let row = line.as_str();
        let (text, tokens) = row.split_once(" ⇒ ").context("a row without ⇒")?;
        let text = plain_text(alloc, text)?;
        let made = shown(alloc, text.as_str())?;
        rows = rows.saturating_add(1);
        if made.as_str() != tokens {
            wrong = wrong.saturating_add(1);
            println!(rt; "{row}, and not {made}")?;
        }
    }
    println!(rt; "{rows} rows, {wrong} wrong")?;
    Ok(())
}
