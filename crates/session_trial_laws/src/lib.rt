//! The text that is generated from a number and a size is a script without any error: definitions and proofs alone.
//!
//! It stands on session_trial, which defines the text, on session_specs, which says what a file without error is, and on
//! the crates that say what tokens (unit_text, script_scanner), statements (script_grammar), early errors (parse_track) and
//! functions (scope_analysis) are. Its laws are those of `proofs/Valid.antt`, for every number and each size up to 100000: the
//! text is a script without early errors, with at most two functions for each line (`generated_is_valid`), has all functions
//! where all are wanted (`generated_has_all`), and has less than 2 ^ 24 bytes (`generated_is_short`). The commands `trial` and
//! `churn` ask for no size above 100000 (`proofs/Commands.antt`).
//!
//! Each of the four kinds of lines has its parts that are spelled out, whose tokens are worked out once (`SpelledParts`), a
//! name and a number, of any digits (`Digits`, `NamesAndNumbers`), and a tree (`Trees`); `LinesRead` puts lines together.
#![tactic(auto)]
