//! The words of `load`.

use crate::files::{FileOptions, add_images, file_options};
use crate::look::{Look, NO_PROGRESS, add_look, found_look};
use crate::parts::{Words, value};
use crate::words::Request;
use clap::{ArgMatches, Command};
use std::alloc::{AllocError, Global};

/// How the code of an image is listed.
#[derive(Clone, Copy, PartialEq, Eq)]
pub enum LoadFormat {
    /// With notes.
    Human,
    /// As `stencilc load` lists it.
    Plain,
    /// A JSON object an image, one line each.
    Json,
}

/// What `load` is asked for.
#[derive(Drop)]
pub struct LoadOptions {
    pub files: FileOptions,
    pub format: LoadFormat,
    pub look: Look,
}

static FORMATS: [&str; 3] = ["human", "plain", "json"];

/// Adds the command `load`.
pub(crate) fn add_command(
    alloc: Global,
    commands: &mut Vec<Command<'_>>,
) -> Result<(), AllocError> {
    let mut words = Words::new(alloc);
    add_images(&mut words)?;
    words.choice("format", FORMATS.as_slice(), "human", "how code is listed")?;
    add_look(&mut words, NO_PROGRESS)?;
    words.finish(commands, "load", "list the code of images")
}

fn format_of(word: &str) -> LoadFormat {
    match word {
        "plain" => LoadFormat::Plain,
        "json" => LoadFormat::Json,
        _ => LoadFormat::Human,
    }
}

/// What the words of `load` ask for.
pub(crate) fn request(alloc: Global, found: &ArgMatches<'_>) -> Result<Request, AllocError> {
    let files = file_options(alloc, found)?;
    Ok(Request::Load(LoadOptions {
        files,
        format: format_of(value(found, "format", "human")),
        look: found_look(found),
    }))
}
