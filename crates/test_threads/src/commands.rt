//! Words and files of commands.

use std::alloc::{AllocError, Global};

/// More than any command counts.
pub(crate) const ROOM: u64 = 1 << 62;

/// The words of a line.
pub(crate) fn words_of(alloc: Global, line: &str) -> Result<Vec<String>, AllocError> {
    let mut words = Vec::new(alloc);
    for word in line.split(' ') {
        words.push(String::from_str(alloc, word)?)?;
    }
    Ok(words)
}

/// A file of this name.
pub(crate) fn file(
    alloc: Global,
    name: &str,
    text: &[u8],
) -> Result<(String, Vec<u8>), AllocError> {
    let name = String::from_str(alloc, name)?;
    let bytes = Vec::from_slice(alloc, text)?;
    Ok((name, bytes))
}
