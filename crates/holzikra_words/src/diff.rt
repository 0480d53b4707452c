//! The words of `diff`.

use crate::look::{Colors, add_colors, found_colors};
use crate::parts::{Words, value};
use crate::words::Request;
use clap::{ArgMatches, Command};
use std::alloc::{AllocError, Global};

/// How differences are written.
#[derive(Clone, Copy, PartialEq, Eq)]
pub enum DiffFormat {
    /// The lines around each change, for a person.
    Human,
    /// One JSON object in a line.
    Json,
}

/// What `diff` is asked for.
#[derive(Drop)]
pub struct DiffOptions {
    /// The files of both scripts or images, or `-` for standard input, as they were written. At most one of them is `-`.
    pub old: String,
    pub new: String,
    pub format: DiffFormat,
    /// What standard input is called.
    pub stdin_name: String,
    pub colors: Colors,
}

/// What both files are, in help.
const SIDE: &str = "a script or an image; one of both may be - for standard input";

static FORMATS: [&str; 2] = ["human", "json"];

/// Adds the command `diff`.
pub(crate) fn add_command(
    alloc: Global,
    commands: &mut Vec<Command<'_>>,
) -> Result<(), AllocError> {
    let mut words = Words::new(alloc);
    words.one("OLD", SIDE)?;
    words.one("NEW", SIDE)?;
    let format = "how differences are written";
    words.choice("format", FORMATS.as_slice(), "human", format)?;
    words.valued("stdin-name", "NAME", "<stdin>", "what - is called")?;
    add_colors(&mut words)?;
    words.finish(commands, "diff", "compare the code of two scripts")
}

fn format_of(word: &str) -> DiffFormat {
    match word {
        "json" => DiffFormat::Json,
        _ => DiffFormat::Human,
    }
}

/// What is wrong with the files, if something is: standard input can be read once.
pub(crate) fn complaint(
    alloc: Global,
    found: &ArgMatches<'_>,
) -> Result<Option<String>, AllocError> {
    if value(found, "OLD", "") == "-" && value(found, "NEW", "") == "-" {
        let message = "only one of <OLD> and <NEW> may be '-', standard input";
        return Ok(Some(String::from_str(alloc, message)?));
    }
    Ok(None)
}

/// What the words of `diff` ask for.
pub(crate) fn request(alloc: Global, found: &ArgMatches<'_>) -> Result<Request, AllocError> {
    let old = String::from_str(alloc, value(found, "OLD", "-"))?;
    let new = String::from_str(alloc, value(found, "NEW", "-"))?;
    let stdin_name = String::from_str(alloc, value(found, "stdin-name", "<stdin>"))?;
    Ok(Request::Diff(DiffOptions {
        old,
        new,
        format: format_of(value(found, "format", "human")),
        stdin_name,
        colors: found_colors(found),
    }))
}
