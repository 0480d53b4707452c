//! A function whose tokens are read without those in the bodies of functions directly in it: definitions and proofs alone.
//!
//! It stands on script_grammar, which says what trees are and how they are written, on scope_analysis, which lists the
//! functions directly in a function, and on grammar_alone_laws, whose laws say what tokens a function of a script has. Its main law,
//! `skipped` (`proofs/Skipping.antt`): where tokens are a function, those that are left without what stands between the
//! braces of some functions directly in it are the same function with these bodies empty (`specs/Skipped.antt`), and none of them
//! is deeper. With any other bodies in their places the two trees are one (`same_inside` of `proofs/Filled.antt`), so a parser
//! that passes bodies over answers the same on both. Where a function's head ends in front of a brace is told by the tokens
//! alone (`one_head` of `proofs/OneHead.antt`).
#![tactic(auto)]
