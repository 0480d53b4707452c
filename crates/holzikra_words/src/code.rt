//! The words of `code`.

use crate::files::{FileOptions, add_files, file_options};
use crate::functions::{FunctionWord, add_functions, function_words};
use crate::look::{Look, NO_PROGRESS, add_look, found_look};
use crate::parts::{Words, value};
use crate::words::Request;
use clap::{ArgMatches, Command};
use std::alloc::{AllocError, Global};

/// How code is listed.
#[derive(Clone, Copy, PartialEq, Eq)]
pub enum CodeFormat {
    /// With notes, for a person.
    Human,
    /// As `stencilc code` lists it.
    Plain,
    /// A JSON object a file, one line each.
    Json,
}

/// What `code` is asked for.
#[derive(Drop)]
pub struct CodeOptions {
    pub files: FileOptions,
    pub format: CodeFormat,
    /// The functions that are meant; all where there is none.
    pub functions: Vec<FunctionWord>,
    /// Whether the line of the source in which a function starts stands in front of its code.
    pub source_lines: bool,
    pub look: Look,
}

static FORMATS: [&str; 3] = ["human", "plain", "json"];

/// Adds the command `code`.
pub(crate) fn add_command(
    alloc: Global,
    commands: &mut Vec<Command<'_>>,
) -> Result<(), AllocError> {
    let mut words = Words::new(alloc);
    add_files(&mut words)?;
    add_functions(&mut words)?;
    words.choice("format", FORMATS.as_slice(), "human", "how code is listed")?;
    words.switch("no-source", "no lines of the source")?;
    add_look(&mut words, NO_PROGRESS)?;
    let about = "list the code, with names, jumps and source lines";
    words.finish(commands, "code", about)
}

fn format_of(word: &str) -> CodeFormat {
    match word {
        "plain" => CodeFormat::Plain,
        "json" => CodeFormat::Json,
        _ => CodeFormat::Human,
    }
}

/// What the words of `code` ask for.
pub(crate) fn request(alloc: Global, found: &ArgMatches<'_>) -> Result<Request, AllocError> {
    let files = file_options(alloc, found)?;
    let functions = function_words(alloc, found)?;
    Ok(Request::Code(CodeOptions {
        files,
        format: format_of(value(found, "format", "human")),
        functions,
        source_lines: !found.get_flag("no-source"),
        look: found_look(found),
    }))
}
