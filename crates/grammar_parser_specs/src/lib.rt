//! The parser of scripts as functions on lists of lexemes: definitions alone.
//!
//! It stands on script_grammar, whose specs say what a lexeme is, which trees the grammar has and how they print. The crates
//! that parse prove that their code answers what these functions answer. That what they answer is what the grammar says is
//! proved in grammar_sound_laws and grammar_complete_laws, and for whole scripts in grammar_script_laws.
#![tactic(auto)]
