//! The functions of a script in order of number, from what a handler found of its statements and of its functions' bodies.
//!
//! It stands on parse_handlers, whose handler `Syntax` finds the functions directly in statements while they are read, and on
//! scope_analysis, whose list of the functions directly in a script it meets (by the law of scope_listing_laws). A lazy first
//! pass reads a script once and each body in braces apart, after what is around it. Here what was found in them is put
//! together: a function takes its number, then those in its parameters' initializers and in its short body, and, where its
//! body has braces, the next body and those in it. So the numbers are those of the order in which parameters start, from 1.
//!
//! The main contract is that of `list::functions_of`: each function comes with its extent, kind and name, the extents of
//! those directly in it, and its place in the function around it (`specs/Placed.antt`); and beside them the first early error
//! of rule 14, which asks for a function's parameters and its body (`specs/Strict.antt`). It takes time in proportion to the
//! functions. It calls itself as deep as functions stand in functions.
#![tactic(auto)]

pub mod list;
mod listing;

pub use list::{FoundBody, ListedFunction, ScriptFunctions, functions_of};
