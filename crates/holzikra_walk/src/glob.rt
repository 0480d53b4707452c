//! What is passed over of a folder: names, and paths with a stroke.

use regex::{Error, Regex, escape};
use std::alloc::{AllocError, Global};

/// Appends what matches a part of a glob without `**`: `*` stands for a part of a name.
fn push_names(pattern: &mut String, alloc: Global, glob: &str) -> Result<(), AllocError> {
    for (place, letters) in glob.split('*').enumerate() {
        if place > 0 {
            pattern.push_str("[^/]*")?;
        }
        let escaped = escape(alloc, letters)?;
        pattern.push_str(escaped.as_str())?;
    }
    Ok(())
}

/// Appends what matches a part of a glob without `**/`: `**` stands for any part of a path.
fn push_parts(pattern: &mut String, alloc: Global, glob: &str) -> Result<(), AllocError> {
    for (place, names) in glob.split("**").enumerate() {
        if place > 0 {
            pattern.push_str(".*")?;
        }
        push_names(pattern, alloc, names)?;
    }
    Ok(())
}

/// Appends what matches the paths that a glob stands for: where it has no stroke, all whose last name fits it. `**/` stands for any
/// number of folders, also for none.
fn push_glob(pattern: &mut String, alloc: Global, glob: &str) -> Result<(), AllocError> {
    let glob = glob.trim_end_matches('/');
    if !glob.contains('/') {
        pattern.push_str("(?:.*/)?")?;
    }
    for (place, parts) in glob.split("**/").enumerate() {
        if place > 0 {
            pattern.push_str("(?:.*/)?")?;
        }
        push_parts(pattern, alloc, parts)?;
    }
    Ok(())
}

/// The paths that are passed over: those that one of the globs stands for. None where there is no glob.
pub(crate) fn excluded_paths(alloc: Global, globs: &[String]) -> Result<Option<Regex>, Error> {
    if globs.is_empty() {
        return Ok(None);
    }
    let mut pattern = String::from_str(alloc, "^(?s:")?;
    for (place, glob) in globs.iter().enumerate() {
        if place > 0 {
            pattern.push('|')?;
        }
        push_glob(&mut pattern, alloc, glob.as_str())?;
    }
    pattern.push_str(")$")?;
    let regex = Regex::new(alloc, pattern.as_str())?;
    Ok(Some(regex))
}

/// Whether a path is passed over.
pub(crate) fn is_excluded(
    alloc: Global,
    excluded: &Option<Regex>,
    path: &str,
) -> Result<bool, AllocError> {
    match excluded {
        None => Ok(false),
        Some(regex) => Ok(regex.matcher(alloc)?.is_match(path)),
    }
}
