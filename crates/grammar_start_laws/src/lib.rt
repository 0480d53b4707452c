//! Where the tokens and the functions of a script start, and what follows from it: definitions and lemmas alone.
//!
//! It stands on script_grammar, which says what trees are and how they are written, and on grammar_parser_specs, whose trees have
//! other bodies where these were passed over, and on script_scanner, whose tokens start at rising offsets (`proofs/Rising.antt`).
//! Its other main laws: the functions of a tree start at tokens of their own, in the
//! order of the source (`proofs/Starting.antt`); so each body is found by where its function starts, and a tree whose
//! bodies are given so is the whole tree (`proofs/Finding.antt`).
#![tactic(auto)]
