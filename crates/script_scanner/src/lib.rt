//! The scanner: from the code points of a source text to its tokens.
//!
//! It stands on the points of unit_text, the atoms of parser_atoms and the token types of script_grammar; the parsers
//! read what [`scan`] gives them. `scan` answers exactly the tokens of the part of a text between two offsets, by the
//! lexical grammar of `specs/` (ECMA-262, 12th edition, clause 12, as far as this project has it), each name, word,
//! string and template part by the atom of its text. [`scan_ascii`] answers the same of bytes of ASCII, for which no list of points
//! is made: the functions below read their points through `Source`, which stands for such a list however it lies in memory.
#![tactic(auto)]

mod blanks;
mod braces;
mod escapes;
mod fronts;
mod known;
mod marks;
mod names;
mod numbers;
mod parts;
mod pieces;
mod scanning;
mod sources;
mod words;

pub use scanning::{scan, scan_ascii};
