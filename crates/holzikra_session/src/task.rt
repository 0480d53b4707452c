//! What is done with each file.

use holzikra_words::{
    CheckOptions, CodeFormat, CodeOptions, FileOptions, Format, FunctionName, LoadFormat,
    LoadOptions, ScopesFormat, ScopesOptions, StatsFormat, StatsOptions, VerifyFormat,
    VerifyOptions,
};
use std::alloc::{AllocError, Global};

/// What is done with each file.
#[derive(Clone, Copy)]
pub(crate) enum Task<'a> {
    Check(&'a CheckOptions),
    Code(&'a CodeOptions),
    Scopes(&'a ScopesOptions),
    Stats(&'a StatsOptions),
    Load(&'a LoadOptions),
    Verify(&'a VerifyOptions),
}

impl<'a> Task<'a> {
    /// Which files.
    pub(crate) fn files(self) -> &'a FileOptions {
        match self {
            Task::Check(options) => &options.files,
            Task::Code(options) => &options.files,
            Task::Scopes(options) => &options.files,
            Task::Stats(options) => &options.files,
            Task::Load(options) => &options.files,
            Task::Verify(options) => &options.files,
        }
    }

    /// What the command is called.
    pub(crate) fn word(self) -> &'static str {
        match self {
            Task::Check(_) => "check",
            Task::Code(_) => "code",
            Task::Scopes(_) => "scopes",
            Task::Stats(_) => "stats",
            Task::Load(_) => "load",
            Task::Verify(_) => "verify",
        }
    }

    /// How a file that is refused is shown.
    pub(crate) fn format(self) -> Format {
        match self {
            Task::Check(options) => options.format,
            Task::Code(options) if options.format == CodeFormat::Json => Format::Json,
            Task::Scopes(options) if options.format == ScopesFormat::Json => Format::Json,
            Task::Stats(options) if options.format == StatsFormat::Json => Format::Json,
            Task::Load(options) if options.format == LoadFormat::Json => Format::Json,
            Task::Verify(options) if options.format == VerifyFormat::Json => Format::Json,
            Task::Code(_) | Task::Scopes(_) | Task::Stats(_) => Format::Human,
            Task::Load(_) | Task::Verify(_) => Format::Human,
        }
    }

    /// Whether files are taken as images.
    pub(crate) fn takes_images(self) -> bool {
        match self {
            Task::Check(_) | Task::Code(_) | Task::Scopes(_) | Task::Stats(_) => false,
            Task::Load(_) | Task::Verify(_) => true,
        }
    }

    /// The word for functions of this place, as it was written.
    pub(crate) fn function_word(self, alloc: Global, place: usize) -> Result<String, AllocError> {
        let word = match self {
            Task::Code(options) => options.functions.get(place),
            Task::Scopes(options) => options.functions.get(place),
            Task::Check(_) | Task::Stats(_) => None,
            Task::Load(_) | Task::Verify(_) => None,
        };
        match word {
            None => Ok(String::new(alloc)),
            Some(word) => shown_function(alloc, &word.name),
        }
    }
}

/// How a function is asked for, as an error has it.
pub(crate) fn shown_function(alloc: Global, name: &FunctionName) -> Result<String, AllocError> {
    match name {
        FunctionName::Number(number) => format!(in alloc; "{number}"),
        FunctionName::Text(name) => format!(in alloc; "`{name}`"),
        FunctionName::Place(line, column) => format!(in alloc; "at {line}:{column}"),
    }
}
