//! The words of `verify`.

use crate::files::{FileOptions, add_images, file_options};
use crate::look::{Look, add_look, found_look};
use crate::parts::{Words, value};
use crate::words::Request;
use clap::{ArgMatches, Command};
use std::alloc::{AllocError, Global};

/// How verdicts on images are written.
#[derive(Clone, Copy, PartialEq, Eq)]
pub enum VerifyFormat {
    /// A line for a person.
    Human,
    /// A JSON object a file, one line each.
    Json,
}

/// What `verify` is asked for.
#[derive(Drop)]
pub struct VerifyOptions {
    pub files: FileOptions,
    pub format: VerifyFormat,
    pub look: Look,
}

static FORMATS: [&str; 2] = ["human", "json"];

/// Adds the command `verify`.
pub(crate) fn add_command(
    alloc: Global,
    commands: &mut Vec<Command<'_>>,
) -> Result<(), AllocError> {
    let mut words = Words::new(alloc);
    add_images(&mut words)?;
    let format = "how the answers are written";
    words.choice("format", FORMATS.as_slice(), "human", format)?;
    let quiet = "images that are sound have no line; no progress on a terminal";
    add_look(&mut words, quiet)?;
    let about = "say whether the code of images is sound";
    words.finish(commands, "verify", about)
}

fn format_of(word: &str) -> VerifyFormat {
    match word {
        "json" => VerifyFormat::Json,
        _ => VerifyFormat::Human,
    }
}

/// What the words of `verify` ask for.
pub(crate) fn request(alloc: Global, found: &ArgMatches<'_>) -> Result<Request, AllocError> {
    let files = file_options(alloc, found)?;
    Ok(Request::Verify(VerifyOptions {
        files,
        format: format_of(value(found, "format", "human")),
        look: found_look(found),
    }))
}
