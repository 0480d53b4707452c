//! The differences of two scripts' code, function by function, and their text for people.
//!
//! It stands on the pairs of functions and the lines of their code (holzikra_pairs) and on the edits between lists of lines
//! (holzikra_edits), below the program for people.
//!
//! The main contract: of each pair of functions, and of each function that is in one script alone, the edits of
//! [`difference_of`] lead from the lines of the old script's code to those of the new script's (`IsChange` of
//! `specs/Changes.antt`), and [`append_edits`] writes each line that they name behind a blank, `-` or `+`. Which functions are
//! pairs, and what their lines are, is tested.
#![tactic(auto)]

mod changes;
mod heads;
mod hunks;
mod text;

pub use changes::{Change, Counts, Difference, difference_of};
pub use hunks::append_edits;
pub use text::{Side, append_difference};
