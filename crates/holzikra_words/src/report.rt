//! The words of `report`.

use crate::files::{FileOptions, add_files, file_options};
use crate::functions::{FunctionWord, add_functions, function_words};
use crate::look::{NO_PROGRESS, add_quiet, found_quiet};
use crate::parts::{Words, value};
use crate::words::Request;
use clap::{ArgMatches, Command};
use std::alloc::{AllocError, Global};

/// What `report` is asked for.
#[derive(Drop)]
pub struct ReportOptions {
    pub files: FileOptions,
    /// The functions that are meant; all where there is none.
    pub functions: Vec<FunctionWord>,
    /// The file that the page is written to, or `-` for standard output.
    pub page: String,
    /// Not how far the command is.
    pub quiet: bool,
}

/// Adds the command `report`.
pub(crate) fn add_command(
    alloc: Global,
    commands: &mut Vec<Command<'_>>,
) -> Result<(), AllocError> {
    let mut words = Words::new(alloc);
    add_files(&mut words)?;
    add_functions(&mut words)?;
    let page = "where the page is written; - is standard output";
    words.needed("output", 'o', "PAGE", page)?;
    add_quiet(&mut words, NO_PROGRESS)?;
    words.finish(commands, "report", "write one page for a browser")
}

/// What the words of `report` ask for.
pub(crate) fn request(alloc: Global, found: &ArgMatches<'_>) -> Result<Request, AllocError> {
    let files = file_options(alloc, found)?;
    let functions = function_words(alloc, found)?;
    let page = String::from_str(alloc, value(found, "output", "-"))?;
    Ok(Request::Report(ReportOptions {
        files,
        functions,
        page,
        quiet: found_quiet(found),
    }))
}
