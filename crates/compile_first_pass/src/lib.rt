//! The first pass over a file: its script, read without trees of its functions' bodies, or why it is refused.
//!
//! It stands on `parse_script`, which finds the tokens of a file and reads the script that they are by any handler, on
//! `parse_function_list`, which puts the functions that were found into the order of their numbers, and on
//! `early_script_errors`, which checks a script by what it tells. What it answers is what the definitions of `session_specs`
//! say of the file's bytes. Whoever compiles a script's functions later asks it; `check` of
//! `compile_session` asks [`check_file`], which keeps less.
//!
//! A script is read once. The handler has to keep of each body what its functions are, what it tells of its names, and its first
//! early error of a rule that looks at no region (`Skims` of `skim`), in whatever form its nodes have. `Skimming` of
//! `parse_skim_handler` keeps all three.
//!
//! The main contract is that of [`first_pass`]: the script is without errors, its functions come in order of number, each with its
//! extent, kind, name and the extents of those directly in it, and with the names that inner functions close over; or the
//! file is refused as by the definitions (`IsFirstPass` of `specs/Passes.antt`). No tree is made. [`check_file`] answers the same but for
//! the script itself (`IsVerdict`), and takes less time and memory.
#![tactic(auto)]

mod pass;
mod skim;
mod verdict;

pub use pass::{FirstPass, SourceFault, SyntaxScript, first_pass, start_of};
pub use skim::{Skimmed, Skims};
pub use verdict::{FileVerdict, check_file};
