//! Tokens and trees of a script, the trait by which a parser hands out what it reads, and the matching of brackets.
//!
//! It stands on no crate of this project. The scanner makes its tokens (`token`, and `compact` for the form in which a list has
//! them), the parsers read them and call a `Handler`
//! (`handler`, with the forms that it is handed in `build` and `node`), and whoever keeps a tree has the types of `tree`.
//! `brackets` finds the partner of each bracket. Its specs have the grammar itself: the trees of the model, how they print,
//! and which lists of tokens are a script.
//!
//! The main contract is the trait `Handler`: each method says which tree of the model its node stands for, so that a parser
//! that is generic in its handler meets one contract, whatever the handler keeps.
#![tactic(auto)]

pub mod brackets;
pub mod build;
pub mod compact;
pub mod handler;
pub mod node;
pub mod token;
pub mod tree;
