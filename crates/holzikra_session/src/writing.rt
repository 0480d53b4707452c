//! Files that are written.

use std::io::Write;
use std::rt::{Files, Runtime};
use std::{fs, io};

/// Whether a file can be put in the place of what has this name: nothing has it, or a file that is no link.
fn can_replace<R: Files>(rt: &R, name: &str) -> bool {
    match fs::symlink_metadata(rt, name) {
        Ok(found) => found.is_file(),
        Err(_) => true,
    }
}

/// Writes the bytes to `part`, and gives that file this name.
fn write_and_rename<R: Files>(rt: &R, part: &str, name: &str, bytes: &[u8]) -> io::Result<()> {
    fs::write(rt, part, bytes)?;
    fs::rename(rt, part, name)
}

/// Writes a file anew, so that at no time the file of this name has a part of the bytes alone. Where that fails, nothing is left beside it.
fn write_file<R: Files + AllocGlobal>(rt: &R, name: &str, bytes: &[u8]) -> io::Result<()> {
    if !can_replace(rt, name) {
        return fs::write(rt, name, bytes);
    }
    let part = format!(in rt.alloc(); "{name}.part")?;
    let written = write_and_rename(rt, part.as_str(), name, bytes);
    if written.is_err() {
        // What went wrong is said of the writing; the part may be missing.
        let _removed = fs::remove_file(rt, part.as_str());
    }
    written
}

/// Writes bytes to the file of this name, or to standard output where the name is `-`.
pub(crate) fn write_to<R: Runtime + AllocGlobal>(
    rt: &R,
    name: &str,
    bytes: &[u8],
) -> io::Result<()> {
    if name == "-" {
        return io::writer(rt).write_all(bytes);
    }
    write_file(rt, name, bytes)
}
