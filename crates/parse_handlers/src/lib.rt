//! Two handlers for the parsers: `Full` keeps the trees, and `Syntax` keeps of what is read only the functions in it.
//!
//! It stands on `script_grammar`, whose trait `Handler` says what each method has to do, and on `stencil_data`. A lazy
//! first pass reads a whole script with `Syntax`, which needs little memory, and one function is read alone with
//! `Full`, whose tree the emitters take. Both meet the law of each method: a node of `Full` is the tree that it stands
//! for (`specs/Kept.antt`), and a node of `Syntax` holds the functions directly in the tree (`specs/FoundOf.antt`).
#![tactic(auto)]

pub mod found;
pub mod full;
mod gather;
mod parts;
pub mod syntax;

pub use found::{FoundFunction, SyntaxBody, SyntaxNode};
pub use full::Full;
pub use syntax::Syntax;
