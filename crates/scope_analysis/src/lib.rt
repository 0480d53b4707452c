//! Scopes: which names the scopes of a script or function bind, where their values live, and where a name is found.
//!
//! It stands between the trees of script_grammar and the emitters. Its definitions say what the scopes of a tree are:
//! the names that parts of a tree declare (`specs/DeclaredNames.antt`) and use (`specs/Uses.antt`), the scopes with their
//! bindings and slots (`specs/Scopes.antt`), and the functions directly in a part, with the scopes around each
//! (`specs/Functions.antt`).
//!
//! Its main contracts: `top_scopes` and `scopes_using` give the scopes of the definition, by their texts, where the closed
//! names that are handed in are those of these scopes (`CloseOver` in `specs/Walked.antt`); and `resolve` answers the
//! place of the first binding of a name on a chain.
#![tactic(auto)]

mod digests;
mod functions;
mod later_texts;
mod names;
mod place;
mod resolving;
mod scoping;
pub mod special_names;
mod text_set;
mod texts;
mod toplevel;

pub use functions::{OwnUses, has_initializer, scopes_using};
pub use place::{same_units, units_of};
pub use resolving::resolve;
pub use toplevel::top_scopes;
