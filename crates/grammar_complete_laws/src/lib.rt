//! Where the tokens begin with a tree of the grammar, the parser answers that tree: lemmas alone.
//!
//! It stands on grammar_parser_laws, which says what it is for a call of the parser to be complete. Its main law is
//! `proofs/CompleteEverything.antt`, of every function of the parser at once.
#![tactic(auto)]
