//! The words of `scopes`.

use crate::files::{FileOptions, add_files, file_options};
use crate::functions::{FunctionWord, add_functions, function_words};
use crate::look::{Look, NO_PROGRESS, add_look, found_look};
use crate::parts::{Words, value};
use crate::words::Request;
use clap::{ArgMatches, Command};
use std::alloc::{AllocError, Global};

/// How scopes are drawn.
#[derive(Clone, Copy, PartialEq, Eq)]
pub enum ScopesFormat {
    /// As a tree, for a person.
    Human,
    /// As `stencilc scopes` lists them.
    Plain,
    /// A JSON object a file, one line each.
    Json,
    /// As a graph in the language DOT of Graphviz.
    Dot,
}

/// What `scopes` is asked for.
#[derive(Drop)]
pub struct ScopesOptions {
    pub files: FileOptions,
    pub format: ScopesFormat,
    /// The functions that are meant; all where there is none.
    pub functions: Vec<FunctionWord>,
    pub look: Look,
}

static FORMATS: [&str; 4] = ["human", "plain", "json", "dot"];

/// Adds the command `scopes`.
pub(crate) fn add_command(
    alloc: Global,
    commands: &mut Vec<Command<'_>>,
) -> Result<(), AllocError> {
    let mut words = Words::new(alloc);
    add_files(&mut words)?;
    add_functions(&mut words)?;
    words.choice(
        "format",
        FORMATS.as_slice(),
        "human",
        "how scopes are drawn",
    )?;
    add_look(&mut words, NO_PROGRESS)?;
    let about = "draw functions and scopes, and who closes over what";
    words.finish(commands, "scopes", about)
}

fn format_of(word: &str) -> ScopesFormat {
    match word {
        "plain" => ScopesFormat::Plain,
        "json" => ScopesFormat::Json,
        "dot" => ScopesFormat::Dot,
        _ => ScopesFormat::Human,
    }
}

/// What the words of `scopes` ask for.
pub(crate) fn request(alloc: Global, found: &ArgMatches<'_>) -> Result<Request, AllocError> {
    let files = file_options(alloc, found)?;
    let functions = function_words(alloc, found)?;
    Ok(Request::Scopes(ScopesOptions {
        files,
        format: format_of(value(found, "format", "human")),
        functions,
        look: found_look(found),
    }))
}
