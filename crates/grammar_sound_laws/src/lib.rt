//! What the parser answers is a tree of the grammar that prints as the tokens that it read: lemmas alone.
//!
//! It stands on grammar_parser_laws, which says what it is for a call of the parser to be sound. Its main law is
//! `proofs/SoundEverything.antt`, of every function of the parser at once.
#![tactic(auto)]
