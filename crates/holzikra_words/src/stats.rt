//! The words of `stats`.

use crate::files::{FileOptions, add_files, file_options};
use crate::look::{Look, NO_SUMMARY, add_look, found_look};
use crate::parts::{Words, value};
use crate::words::Request;
use clap::{ArgMatches, Command};
use std::alloc::{AllocError, Global};

/// How counts are written.
#[derive(Clone, Copy, PartialEq, Eq)]
pub enum StatsFormat {
    /// As a table, for a person.
    Human,
    /// A JSON object a file, one line each.
    Json,
}

/// What the lines of the table are sorted by.
#[derive(Clone, Copy, PartialEq, Eq)]
pub enum Column {
    /// The names of the files.
    File,
    Functions,
    Closed,
    Instructions,
    CodeBytes,
    Depth,
    Nested,
    SourceBytes,
}

/// What `stats` is asked for.
#[derive(Drop)]
pub struct StatsOptions {
    pub files: FileOptions,
    pub format: StatsFormat,
    /// What the lines of the table are sorted by; where there is nothing they come as the files do.
    pub sort: Option<Column>,
    pub look: Look,
}

static FORMATS: [&str; 2] = ["human", "json"];

static COLUMNS: [&str; 8] = [
    "file",
    "functions",
    "closed",
    "instructions",
    "code-bytes",
    "depth",
    "nested",
    "source-bytes",
];

/// Adds the command `stats`.
pub(crate) fn add_command(
    alloc: Global,
    commands: &mut Vec<Command<'_>>,
) -> Result<(), AllocError> {
    let mut words = Words::new(alloc);
    add_files(&mut words)?;
    words.choice(
        "format",
        FORMATS.as_slice(),
        "human",
        "how counts are written",
    )?;
    let sort = "what the lines of the table are sorted by";
    words.named("sort", "COLUMN", COLUMNS.as_slice(), sort)?;
    add_look(&mut words, NO_SUMMARY)?;
    let about = "count functions, closed names, instructions, bytes";
    words.finish(commands, "stats", about)
}

fn format_of(word: &str) -> StatsFormat {
    match word {
        "json" => StatsFormat::Json,
        _ => StatsFormat::Human,
    }
}

fn column_of(word: &str) -> Column {
    match word {
        "functions" => Column::Functions,
        "closed" => Column::Closed,
        "instructions" => Column::Instructions,
        "code-bytes" => Column::CodeBytes,
        "depth" => Column::Depth,
        "nested" => Column::Nested,
        "source-bytes" => Column::SourceBytes,
        _ => Column::File,
    }
}

/// What is wrong with the options, if something is: only a table is sorted.
pub(crate) fn complaint(
    alloc: Global,
    found: &ArgMatches<'_>,
) -> Result<Option<String>, AllocError> {
    if found.get_str("sort").is_some() && value(found, "format", "human") == "json" {
        let message = "'--sort <COLUMN>' is of the table, and not of '--format json'";
        return Ok(Some(String::from_str(alloc, message)?));
    }
    Ok(None)
}

/// What the words of `stats` ask for.
pub(crate) fn request(alloc: Global, found: &ArgMatches<'_>) -> Result<Request, AllocError> {
    let files = file_options(alloc, found)?;
    Ok(Request::Stats(StatsOptions {
        files,
        format: format_of(value(found, "format", "human")),
        sort: found.get_str("sort").map(column_of),
        look: found_look(found),
    }))
}
