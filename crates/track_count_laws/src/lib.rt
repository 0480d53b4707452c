//! How many regions a script tells, against its tokens: definitions and proofs alone.
//!
//! It stands on parse_track, which says what a tree tells, and on script_grammar, which says what tokens a tree is written with.
//! A region begins at a token of its own, or with a function, a label or a part of a statement that has tokens of its own: each token
//! stands for three regions at most. So a script tells no more than one region and three for each of its tokens
//! (`proofs/Scripts.antt`), and a track that was told a file within the limit of length has a number for each of its regions.
#![tactic(auto)]
