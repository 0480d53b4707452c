//! A function of a script, read from its text without what stands in the bodies of functions directly in it: definitions and
//! lemmas alone.
//!
//! They join grammar_skip_laws, which says what tokens without those of some bodies are, and scan_skip_laws, which says what
//! tokens a text with blanks in their places has; both over the functions of a script as grammar_alone_laws has them. Two main
//! laws: the text of a function's extent with these blanks is scanned to the function with empty bodies (`function_skipped` of
//! `proofs/FunctionSkipped.antt`, `specs/Read.antt`); and where a body's brace stands is told by the text in front of it
//! (`hole_found` of `proofs/HoleFound.antt`).
#![tactic(auto)]
