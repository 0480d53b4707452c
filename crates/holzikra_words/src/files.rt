//! The words that name files, for the commands that walk through folders.

use crate::parts::{Words, texts, value};
use clap::ArgMatches;
use std::alloc::{AllocError, Global};

/// Which files a command is about.
#[derive(Drop)]
pub struct FileOptions {
    /// Files, folders, and `-` for standard input, as they were written.
    pub paths: Vec<String>,
    /// Folders named `node_modules`, and names that begin with `.`, are entered too.
    pub all: bool,
    /// The ends of the names that are taken of a folder, without the point.
    pub extensions: Vec<String>,
    /// What is passed over of a folder: names, and with a stroke paths, in which `*` stands for a part of a name and `**` for any part.
    pub excluded: Vec<String>,
    /// What standard input is called.
    pub stdin_name: String,
}

/// The words that name files, of which in a folder those are taken whose names end so.
fn add_files_named<'a>(words: &mut Words<'a>, taken: &'a str) -> Result<(), AllocError> {
    words.some("PATH", "a file, a folder, or - for standard input")?;
    words.list("ext", "LIST", taken, "which files of a folder are taken")?;
    words.valued("stdin-name", "NAME", "<stdin>", "what - is called")?;
    words.switch("all", "enter node_modules and what begins with a point")?;
    let excluded = "what of a folder is passed over; may be given again";
    words.repeated("exclude", "GLOB", excluded)
}

/// The words that name scripts.
pub(crate) fn add_files(words: &mut Words<'_>) -> Result<(), AllocError> {
    add_files_named(words, "js,cjs")
}

/// The words that name images.
pub(crate) fn add_images(words: &mut Words<'_>) -> Result<(), AllocError> {
    add_files_named(words, "stn")
}

/// Which files the words name.
pub(crate) fn file_options(
    alloc: Global,
    found: &ArgMatches<'_>,
) -> Result<FileOptions, AllocError> {
    let paths = texts(alloc, found, "PATH")?;
    let extensions = texts(alloc, found, "ext")?;
    let excluded = texts(alloc, found, "exclude")?;
    let stdin_name = String::from_str(alloc, value(found, "stdin-name", "<stdin>"))?;
    Ok(FileOptions {
        paths,
        all: found.get_flag("all"),
        extensions,
        excluded,
        stdin_name,
    })
}
