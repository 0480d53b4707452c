//! The words that say how what is printed looks.

use crate::parts::{Words, value};
use clap::ArgMatches;
use std::alloc::AllocError;

/// When what is printed for a person has colours.
#[derive(Clone, Copy, PartialEq, Eq)]
pub enum Colors {
    /// On a terminal that shows them, where no one asked for none.
    Auto,
    /// Always.
    Always,
    /// Never.
    Never,
}

static COLORS: [&str; 3] = ["auto", "always", "never"];

/// How what is printed looks.
#[derive(Clone, Copy, PartialEq, Eq)]
pub struct Look {
    pub colors: Colors,
    /// No summary, and not how far the command is.
    pub quiet: bool,
}

/// What `--quiet` does, in help.
pub(crate) const NO_SUMMARY: &str = "no summary, and no progress on a terminal";

/// What `--quiet` does of a command that has no summary, in help.
pub(crate) const NO_PROGRESS: &str = "no progress on a terminal";

/// The option for colours.
pub(crate) fn add_colors(words: &mut Words<'_>) -> Result<(), AllocError> {
    let help = "when what is printed for people has colours";
    words.choice("color", COLORS.as_slice(), "auto", help)
}

/// The option that leaves out what is no answer.
pub(crate) fn add_quiet<'a>(words: &mut Words<'a>, help: &'a str) -> Result<(), AllocError> {
    words.lettered_switch("quiet", 'q', help)
}

/// Both options.
pub(crate) fn add_look<'a>(words: &mut Words<'a>, quiet: &'a str) -> Result<(), AllocError> {
    add_quiet(words, quiet)?;
    add_colors(words)
}

fn colors_of(word: &str) -> Colors {
    match word {
        "always" => Colors::Always,
        "never" => Colors::Never,
        _ => Colors::Auto,
    }
}

/// When the words ask for colours.
pub(crate) fn found_colors(found: &ArgMatches<'_>) -> Colors {
    colors_of(value(found, "color", "auto"))
}

/// Whether the words ask for answers alone.
pub(crate) fn found_quiet(found: &ArgMatches<'_>) -> bool {
    found.get_flag("quiet")
}

/// How the words ask that what is printed looks.
pub(crate) fn found_look(found: &ArgMatches<'_>) -> Look {
    Look {
        colors: found_colors(found),
        quiet: found_quiet(found),
    }
}
