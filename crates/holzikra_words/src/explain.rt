//! The words of `explain`.

use crate::look::{Colors, add_colors, found_colors};
use crate::parts::{Words, texts};
use crate::words::Request;
use clap::{ArgMatches, Command};
use std::alloc::{AllocError, Global};

/// What `explain` is to say.
#[derive(Drop)]
pub struct ExplainOptions {
    /// The codes that are meant, as they were written; all where there is none.
    pub codes: Vec<String>,
    pub colors: Colors,
}

/// Adds the command `explain`.
pub(crate) fn add_command(
    alloc: Global,
    commands: &mut Vec<Command<'_>>,
) -> Result<(), AllocError> {
    let mut words = Words::new(alloc);
    words.any("CODE", "a code, as E4 or P2; without one, the list of all")?;
    add_colors(&mut words)?;
    words.finish(commands, "explain", "say what a code means")
}

/// What the words of `explain` ask for.
pub(crate) fn request(alloc: Global, found: &ArgMatches<'_>) -> Result<Request, AllocError> {
    let codes = texts(alloc, found, "CODE")?;
    Ok(Request::Explain(ExplainOptions {
        codes,
        colors: found_colors(found),
    }))
}
