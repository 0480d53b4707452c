//! The files of a command: those that are named, and those of the folders that are named.
//!
//! It stands on holzikra_words, whose options say which files are meant, below the commands that go through files. The names of a folder
//! come in the order of their bytes, a path that was met already not again, links to folders are not followed, and what a glob excludes
//! is passed over. What a system has in
//! its folders no contract can say: all of this is tested by the program `holzikra`.
#![tactic(auto)]

mod glob;
mod walk;

pub use walk::{Found, Walk};
