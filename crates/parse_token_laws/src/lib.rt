//! The tokens that the scanner answers for a text, or for a part of one, are those of the text, as a parser takes them. Lemmas alone.
//!
//! It stands on script_scanner, which says what tokens a text has and how the tokens of the code stand for them, and on parse_exprs, which
//! says what a parser asks of its tokens (`IsScanned`). Both readers of source text stand on it: parse_script, which reads a whole file,
//! and parse_function, which reads the part of one that a function is.
#![tactic(auto)]
