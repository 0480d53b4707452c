//! The files of a command: those that are named, and those of the folders that are named.

ghost use Rattle.std.specs.Prelude.{IfOk, IsPermutation, IsSorted};
ghost use Rattle.std.specs.String.{string_cmp};

use crate::glob::{excluded_paths, is_excluded};
use holzikra_words::FileOptions;
use regex::{Error, Regex};
use std::alloc::AllocError;
use std::collections::BTreeSet;
use std::io::ErrorKind;
use std::rt::Files;
use std::{fs, io};

/// A path that is still to be looked at.
#[derive(Drop)]
struct Waiting {
    path: String,
    /// Whether it was named by a word of the command, and not found in a folder.
    named: bool,
}

/// What was found next.
#[derive(Drop)]
pub enum Found {
    /// A file, to be read.
    File(String),
    /// Standard input.
    Input,
    /// A path that cannot be looked at, and why.
    Fault(String, io::Error),
}

/// The paths that are still to be looked at, and those that were.
#[derive(Drop)]
pub struct Walk {
    /// The next one is the last.
    waiting: Vec<Waiting>,
    done: BTreeSet<String>,
    /// The paths in folders that are passed over.
    excluded: Option<Regex>,
}

/// What a path is.
enum Kind {
    Folder,
    File,
    /// It was not named, and is none that is taken.
    Passed,
}

/// Whether a name in a folder is passed over.
fn is_hidden(name: &str) -> bool {
    name.starts_with('.') || name == "node_modules"
}

/// The last name of a path.
fn last_name(path: &str) -> &str {
    match path.rsplit_once('/') {
        Some((_, name)) => name,
        None => path,
    }
}

/// Whether the name of a file in a folder ends so that it is taken.
fn is_taken(path: &str, options: &FileOptions) -> bool {
    match last_name(path).rsplit_once('.') {
        None => false,
        Some((_, end)) => {
            for extension in &options.extensions {
                if extension.as_str() == end {
                    return true;
                }
            }
            false
        }
    }
}

/// What a path is. Links to folders that were found in a folder are passed over.
fn kind_of<R: Files>(rt: &R, name: &str, named: bool, options: &FileOptions) -> io::Result<Kind> {
    if named {
        let found = fs::metadata(rt, name)?;
        return Ok(if found.is_dir() {
            Kind::Folder
        } else {
            Kind::File
        });
    }
    let found = fs::symlink_metadata(rt, name)?;
    if found.is_dir() {
        return Ok(Kind::Folder);
    }
    if !is_taken(name, options) {
        return Ok(Kind::Passed);
    }
    if found.is_symlink() && fs::metadata(rt, name)?.is_dir() {
        return Ok(Kind::Passed);
    }
    Ok(Kind::File)
}

/// Why globs cannot be held against paths: they are too many, or memory is wanting.
fn glob_error(error: Error) -> io::Error {
    match error {
        Error::OutOfMemory => ErrorKind::OutOfMemory.into(),
        _ => ErrorKind::InvalidInput.into(),
    }
}

/// The path of a name in a folder.
fn joined<R: AllocGlobal>(rt: &R, folder: &str, name: &str) -> io::Result<String> {
    let mut path = String::from_str(rt.alloc(), folder)?;
    if !folder.ends_with('/') {
        path.push('/')?;
    }
    path.push_str(name)?;
    Ok(path)
}

/// These names, those first whose bytes are less.
fn sorted_names(names: Vec<String>) -> Result<Vec<String>, AllocError>
    ensures permutation { IfOk result (λ sorted. IsPermutation names.items sorted.items) }
    ensures sorted { IfOk result (λ sorted. IsSorted string_cmp sorted.items) }
{
    let mut sorted = names;
    sorted.sort()?;
    Ok(sorted)
}

/// The names in a folder, those first whose bytes are less, and the last fault on the way.
fn names_in<R: Files + AllocGlobal + Clone + Drop>(
    rt: &R,
    folder: &str,
    options: &FileOptions,
) -> io::Result<(Vec<String>, Option<io::Error>)> {
    let mut names = Vec::new(rt.alloc());
    let mut fault = None;
    for entry in fs::read_dir(rt, folder)? {
        match entry {
            Ok(entry) => {
                let name = entry.file_name();
                if options.all || !is_hidden(name) {
                    names.push(String::from_str(rt.alloc(), name)?)?;
                }
            }
            Err(error) => fault = Some(error),
        }
    }
    Ok((sorted_names(names)?, fault))
}

impl Walk {
    /// The paths of a command.
    pub fn new<R: AllocGlobal>(rt: &R, options: &FileOptions) -> io::Result<Walk> {
        let mut waiting = Vec::new(rt.alloc());
        for path in options.paths.iter().rev() {
            let path = path.clone()?;
            waiting.push(Waiting { path, named: true })?;
        }
        let excluded = excluded_paths(rt.alloc(), &options.excluded).map_err(glob_error)?;
        Ok(Walk {
            waiting,
            done: BTreeSet::new(rt.alloc()),
            excluded,
        })
    }

    /// Puts the names of a folder in front of what waits. The fault is that of a name which cannot be looked at.
    fn enter<R: Files + AllocGlobal + Clone + Drop>(
        &mut self,
        rt: &R,
        folder: &str,
        options: &FileOptions,
    ) -> io::Result<Option<io::Error>> {
        let (names, fault) = names_in(rt, folder, options)?;
        for name in names.iter().rev() {
            let path = joined(rt, folder, name.as_str())?;
            if !is_excluded(rt.alloc(), &self.excluded, path.as_str())? {
                self.waiting.push(Waiting { path, named: false })?;
            }
        }
        Ok(fault)
    }

    /// Looks at a path that waits; what there is to be answered, if there is something.
    fn look<R: Files + AllocGlobal + Clone + Drop>(
        &mut self,
        rt: &R,
        waiting: Waiting,
        options: &FileOptions,
    ) -> io::Result<Option<Found>> {
        let Waiting { path, named } = waiting;
        if named && path.as_str() == "-" {
            return Ok(Some(Found::Input));
        }
        if self.done.contains(path.as_str()) {
            return Ok(None);
        }
        self.done.insert(path.clone()?)?;
        match kind_of(rt, path.as_str(), named, options) {
            Err(error) => Ok(Some(Found::Fault(path, error))),
            Ok(Kind::Passed) => Ok(None),
            Ok(Kind::File) => Ok(Some(Found::File(path))),
            Ok(Kind::Folder) => match self.enter(rt, path.as_str(), options) {
                Ok(None) => Ok(None),
                Ok(Some(error)) | Err(error) => Ok(Some(Found::Fault(path, error))),
            },
        }
    }

    /// What is to be answered next; none at the end.
    pub fn next<R: Files + AllocGlobal + Clone + Drop>(
        &mut self,
        rt: &R,
        options: &FileOptions,
    ) -> io::Result<Option<Found>> {
        for _ in 0..u64::MAX {
            let Some(path) = self.waiting.pop() else {
                return Ok(None);
            };
            if let Some(found) = self.look(rt, path, options)? {
                return Ok(Some(found));
            }
        }
        Ok(None)
    }
}
