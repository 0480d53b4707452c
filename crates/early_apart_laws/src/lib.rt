//! The early errors of a script that look at no region are those of its parts: definitions and lemmas alone.
//!
//! A script can be read in parts: its top level with the bodies of functions passed over, and each body by itself, again with
//! the bodies inside passed over. The first of its early errors of this kind is the first among those of the parts, and of
//! those that a function's parameters decide and its body has, as `use strict` with an initializer (`specs/Late.antt`).
//!
//! It stands on parse_track, which says what these early errors are, on script_grammar, whose trees they are of, and on
//! grammar_parser_specs, whose trees have other bodies where these were passed over.
#![tactic(auto)]
