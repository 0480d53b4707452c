//! The words of a command: what `stencilc` is asked to do, as a value.
//!
//! It stands on no crate of this project; the session of one command stands above it. Its main contract is that of
//! [`read_words`]: it answers what `specs/Words.antt` says that the words ask for, and `BadWords` exactly where they have
//! none of its forms.
#![tactic(auto)]

mod choices;
mod numbers;
mod options;
mod words;

pub use options::{Command, FileJob, Options, Order, Want, WordsFault};
pub use words::read_words;
