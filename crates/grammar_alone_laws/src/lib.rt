//! A function of a script whose tokens are read alone is the function of the whole script: definitions and proofs alone.
//!
//! It stands on script_grammar, which says what trees are and how they are written, on scope_analysis, which lists the
//! functions directly in a script or a function, and on grammar_parser_specs for the ends and the brackets of what is written. Its
//! main law, `stands_alone` (`proofs/Alone.antt`), says of each function of a script, at any depth: its tokens are a
//! contiguous part of the script's, begin where the function starts and end where it ends; in front of an End token they
//! are a function of its form with the same tree but for its name; no token of it is deeper alone than in the script; and
//! its brackets match (`specs/Alone.antt`).
#![tactic(auto)]
