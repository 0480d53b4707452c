//! Texts as long as a file may be, each of one kind of token.
use crate::reading::tokens_of;
use anyhow::{Result, bail};
use std::alloc::{AllocError, Global};
use std::fmt::Write;

/// The most bytes of a file.
const MOST_BYTES: usize = 16_777_215;

// As many copies of a piece as fit into a file.
fn repeated(alloc: Global, piece: &str) -> Result<String, AllocError> {
    let mut text = String::new(alloc);
    for _ in 0..MOST_BYTES / piece.len().max(1) {
        text.push_str(piece)?;
    }
    Ok(text)
}

// As many distinct names as fit into a file.
fn distinct_names(alloc: Global) -> Result<String, AllocError> {
    let mut text = String::new(alloc);
    for number in 0..u32::MAX {
        write!(text, "n{number:x} ")?;
        if text.len() > MOST_BYTES - 16 {
            break;
        }
    }
    Ok(text)
}

fn print_tokens(rt: &impl Print, alloc: Global, what: &str, text: &str) -> Result<()> {
    if text.len() > MOST_BYTES {
        bail!("too long a text");
    }
    let (tokens, atoms) = tokens_of(alloc, text.as_bytes())?;
    let tokens = tokens.len();
    let texts = atoms.len();
    println!(rt; "{what}: {tokens} tokens, {texts} texts")?;
    Ok(())
}

/// Scans huge texts and prints how many tokens and texts they have.
pub fn print_huge(rt: &impl Print, alloc: Global) -> Result<()> {
    print_tokens(rt, alloc, "one name", repeated(alloc, "n")?.as_str())?;
    print_tokens(rt, alloc, "blanks", repeated(alloc, " ")?.as_str())?;
    print_tokens(rt, alloc, "parentheses", repeated(alloc, "(")?.as_str())?;
    print_tokens(rt, alloc, "templates", repeated(alloc, "`${")?.as_str())?;
    print_tokens(rt, alloc, "distinct names", distinct_names(alloc)?.as_str())?;
    Ok(())
}
