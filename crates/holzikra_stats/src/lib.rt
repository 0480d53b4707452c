//! The counts of a script: functions, names that are closed over, instructions, bytes of code, and how deep functions are
//! nested.
//!
//! It stands on the data of stencils and on the table of opcodes, below the program for people.
//!
//! The main contract: each count of [`counts_of`] but `nested` is that of the definitions of `specs/Counts.antt`, sums over the
//! parts of the merged stencil.
#![tactic(auto)]

mod counts;
mod nesting;
mod sums;

pub use counts::{Counts, counts_of};
pub use sums::code_instructions;
