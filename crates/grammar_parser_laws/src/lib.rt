//! First laws of the parser that is defined on lists of lexemes: lemmas alone.
//!
//! It stands on grammar_parser_specs, which has the parser, and on script_grammar, which has the trees. Here is what the laws
//! of soundness and of completeness both cite: which tokens a production can begin with, that the parts of a tree are nested,
//! and what it is for a call of the parser to be sound or complete.
#![tactic(auto)]
