//! The command line of `holzikra`: what its words ask for, as a value.
//!
//! It stands on no crate of this project; holzikra_session does what the value says. Each command has a file with its options. The
//! words are read by `clap`, which also words the help, the version and what is wrong with words that ask for nothing.
#![tactic(auto)]

mod check;
mod code;
mod diff;
mod explain;
mod files;
mod functions;
mod load;
mod look;
mod parts;
mod report;
mod save;
mod scopes;
mod stats;
mod verify;
mod words;

pub use check::{CheckOptions, Format, Unsupported};
pub use code::{CodeFormat, CodeOptions};
pub use diff::{DiffFormat, DiffOptions};
pub use explain::ExplainOptions;
pub use files::FileOptions;
pub use functions::{FunctionName, FunctionWord};
pub use load::{LoadFormat, LoadOptions};
pub use look::{Colors, Look};
pub use report::ReportOptions;
pub use save::SaveOptions;
pub use scopes::{ScopesFormat, ScopesOptions};
pub use stats::{Column, StatsFormat, StatsOptions};
pub use verify::{VerifyFormat, VerifyOptions};
pub use words::{Request, read_words};
