//! The words of `check`.

use crate::files::{FileOptions, add_files, file_options};
use crate::look::{Look, NO_SUMMARY, add_look, found_look};
use crate::parts::{Words, value};
use crate::words::Request;
use clap::{ArgMatches, Command};
use std::alloc::{AllocError, Global};

/// How the answers are written.
#[derive(Clone, Copy, PartialEq, Eq)]
pub enum Format {
    /// For a person, with the line of each place.
    Human,
    /// A JSON object a file, one line each.
    Json,
    /// Workflow commands of GitHub.
    Github,
    /// A log in the form SARIF 2.1.0.
    Sarif,
}

/// What becomes of a file that is refused for a form that no script of the profile has.
#[derive(Clone, Copy, PartialEq, Eq)]
pub enum Unsupported {
    /// It is shown, and counts as a refusal.
    Error,
    /// It is shown, and does not count.
    Warn,
    /// It is counted alone, and not shown.
    Skip,
}

/// What `check` is asked for.
#[derive(Drop)]
pub struct CheckOptions {
    pub files: FileOptions,
    pub format: Format,
    pub unsupported: Unsupported,
    /// How many refusals are shown, where there is a limit.
    pub most: Option<u32>,
    pub look: Look,
}

static FORMATS: [&str; 4] = ["human", "json", "github", "sarif"];

static CHOICES: [&str; 3] = ["error", "warn", "skip"];

/// Adds the command `check`.
pub(crate) fn add_command(
    alloc: Global,
    commands: &mut Vec<Command<'_>>,
) -> Result<(), AllocError> {
    let mut words = Words::new(alloc);
    add_files(&mut words)?;
    let format = "how the answers are written";
    words.choice("format", FORMATS.as_slice(), "human", format)?;
    let unsupported = "what a form outside the profile counts as";
    words.choice("unsupported", CHOICES.as_slice(), "error", unsupported)?;
    let most = "how many refusals are shown; 0 is no limit";
    words.number("max", "N", "50", most)?;
    add_look(&mut words, NO_SUMMARY)?;
    let about = "say whether each file is a script without errors";
    words.finish(commands, "check", about)
}

fn format_of(word: &str) -> Format {
    match word {
        "json" => Format::Json,
        "github" => Format::Github,
        "sarif" => Format::Sarif,
        _ => Format::Human,
    }
}

fn unsupported_of(word: &str) -> Unsupported {
    match word {
        "warn" => Unsupported::Warn,
        "skip" => Unsupported::Skip,
        _ => Unsupported::Error,
    }
}

/// How many are shown where this number was given.
fn most_of(number: u32) -> Option<u32> {
    if number == 0 { None } else { Some(number) }
}

/// What the words of `check` ask for.
pub(crate) fn request(alloc: Global, found: &ArgMatches<'_>) -> Result<Request, AllocError> {
    let files = file_options(alloc, found)?;
    Ok(Request::Check(CheckOptions {
        files,
        format: format_of(value(found, "format", "human")),
        unsupported: unsupported_of(value(found, "unsupported", "error")),
        most: most_of(found.get_one::<u32>("max").unwrap_or(50)),
        look: found_look(found),
    }))
}
