//! The words of `save`.

use crate::parts::{Words, value};
use crate::words::Request;
use clap::{ArgMatches, Command};
use std::alloc::{AllocError, Global};

/// What `save` is asked for.
#[derive(Drop)]
pub struct SaveOptions {
    /// The file of the script, or `-` for standard input, as it was written.
    pub file: String,
    /// What standard input is called.
    pub stdin_name: String,
    /// The file that the image is written to, or `-` for standard output.
    pub image: String,
}

/// Adds the command `save`.
pub(crate) fn add_command(
    alloc: Global,
    commands: &mut Vec<Command<'_>>,
) -> Result<(), AllocError> {
    let mut words = Words::new(alloc);
    words.one("FILE", "a file, or - for standard input")?;
    let image = "where the image is written; - is standard output";
    words.needed("output", 'o', "IMAGE", image)?;
    words.valued("stdin-name", "NAME", "<stdin>", "what - is called")?;
    words.finish(commands, "save", "compile a script to an image")
}

/// What the words of `save` ask for.
pub(crate) fn request(alloc: Global, found: &ArgMatches<'_>) -> Result<Request, AllocError> {
    let file = String::from_str(alloc, value(found, "FILE", "-"))?;
    let stdin_name = String::from_str(alloc, value(found, "stdin-name", "<stdin>"))?;
    let image = String::from_str(alloc, value(found, "output", "-"))?;
    Ok(Request::Save(SaveOptions {
        file,
        stdin_name,
        image,
    }))
}
