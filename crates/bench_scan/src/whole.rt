//! The text of the standard input as a whole.
use crate::reading::tokens_of;
use anyhow::{Result, bail};
use std::alloc::Global;
use std::io::Read;

/// The most bytes of a file.
const MOST_BYTES: u64 = 16_777_215;

/// Scans the standard input, and prints how many tokens and texts it has. To be counted by a profiler: nothing else
/// is done with the text.
pub fn scan_input<R: Print + Input>(rt: &R, alloc: Global) -> Result<()> {
    let mut bytes = Vec::new(alloc);
    rt.reader().take(MOST_BYTES).read_to_end(&mut bytes)?;
    if bytes.len() > 16_777_215 {
        bail!("too long a text");
    }
    let (tokens, atoms) = tokens_of(alloc, bytes.as_slice())?;
    let count = tokens.len();
    let texts = atoms.len();
    println!(rt; "{count} tokens, {texts} texts")?;
    Ok(())
}
