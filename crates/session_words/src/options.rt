//! What the words of a command ask for.

/// What is done with each file.
#[derive(Clone, Copy, Debug, PartialEq, Eq)]
pub enum Command {
    /// Its code is printed.
    Code,
    /// Its scopes are printed.
    Scopes,
    /// It is read, and its functions are counted.
    Check,
    /// The image of its stencil is written.
    Save,
    /// It is an image, whose code is printed.
    Load,
    /// It is an image, whose code is verified.
    Verify,
}

/// Which functions are wanted compiled.
#[derive(Debug, Drop)]
pub enum Want {
    All,
    Nothing,
    /// Those of these numbers, from 1 to 16777215 each; repeats change nothing.
    Numbers(Vec<u32>),
}

/// In which order files, or functions of them, are handed out to workers. The output does not depend on it.
#[derive(Clone, Copy, Debug, PartialEq, Eq)]
pub enum Order {
    /// By rising number.
    First,
    /// By falling length, and by rising number among equals.
    Large,
    /// By falling number.
    Reverse,
}

/// A command over files: from 1 to 64 of them, one for `Save`, `Load` and `Verify`.
#[derive(Debug, Drop)]
pub struct FileJob {
    pub command: Command,
    pub want: Want,
    /// From 1 to 16.
    pub workers: u32,
    pub order: Order,
    pub files: Vec<String>,
}

/// What a command asks for. A number is any `u32`, a size from 1 to 100000, workers from 1 to 16.
#[derive(Debug, Drop)]
pub enum Options {
    Files(FileJob),
    /// A generated text is compiled whole.
    Trial {
        number: u32,
        size: u32,
        workers: u32,
    },
    /// The functions of a generated text are compiled, discarded and compiled again.
    Churn {
        number: u32,
        size: u32,
        workers: u32,
    },
}

/// Why words give no options.
#[derive(Clone, Copy, Debug, PartialEq, Eq)]
pub enum WordsFault {
    /// They have none of the forms.
    BadWords,
    NoMemory,
}
