//! The tokens of a file, and the script that they are, read once by whatever handler a caller has.
//!
//! It stands on `unit_text`, which decodes bytes, on `script_scanner`, which finds the tokens, on `track_atoms`, by which the known
//! words have atoms, and on `parse_bodies`, whose `whole` reads a script with the bodies of all its functions. Those who keep
//! trees and those who keep none stand on it.
//!
//! The main contracts are two. [`tokens_of`] answers the tokens of the file's bytes (`lexemes` of script_scanner), or the length of
//! their longest front that is UTF-8. [`read_script`] answers nodes for the one script that these tokens are and for the braced
//! bodies of its functions, or the first fault of all tokens (`IsReadingBy`), also where brackets match only up to some
//! token. Neither clause says how the bytes were scanned: those of ASCII alone are, as they lie there, and others as code points.
#![tactic(auto)]

mod file_tokens;
mod reading;

pub use file_tokens::{FileTokens, tokens_of};
pub use reading::read_script;
