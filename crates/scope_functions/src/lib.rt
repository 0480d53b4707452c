//! The scopes of a function: which of `arguments` and `this` it uses itself, found in its tree, and then its scopes.
//!
//! It stands on scope_analysis, which gives the scopes of a function where it is told of these two names. A walk over
//! the kept tree answers for one name at a time: whether parts of the function use it, functions inside left out, where
//! no scope between binds it. No walk allocates, and each list of statements is looked at once for the names that it
//! declares and once for those that it uses.
//!
//! Its main contract: `scopes` gives the scopes of the definition, by their texts, where the closed names that are handed
//! in are those of these scopes.
#![tactic(auto)]

mod declared;
mod expressions;
mod functions;
mod statements;
mod wanted;

pub use functions::scopes;
