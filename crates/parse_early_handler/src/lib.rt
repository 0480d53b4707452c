//! The handler `EarlyErrorHandler`: the early errors of the rules that look at no region (context-free early errors), found
//! while a script is read, without a tree.
//!
//! It stands on `script_grammar`, whose trait `Handler` says what each method has to do, and on `parse_track`, whose
//! definitions say which early errors a tree has (`notes_expr` and the others of its `specs/Notes.antt`: rules 7, 8, 10, 12,
//! 13 and 14). A parser that is generic over its handler reads a script with it and gets, for each part, a node of a few
//! numbers: the first early error in the part, and what the rules of the part around it ask of its form. No method takes
//! memory, so none of them fails.
//!
//! Its law (`specs/HasErrors.antt`), `HasErrorsBody` for the statements of a script or of a function's body: where deferred
//! bodies are empty and the known words have the atoms `known_atoms`, a node's first early error is that of its tree. So a
//! node speaks of what stands outside deferred bodies, which have nodes of their own. Whether `use strict` may stand in a
//! deferred body (rule 14) is a question of the parameters of its function: the body's node keeps where it stands.
//! `early::first_of_bodies` puts the nodes of a script and of its deferred bodies together.
#![tactic(auto)]

mod directive;
pub mod early;
pub mod handler;
pub mod keys;
pub mod limits;
pub mod nodes;
pub mod parts;
mod shape;
mod words;

pub use directive::Directive;
pub use handler::EarlyErrorHandler;
pub use nodes::{BodyErrors, ExprErrors, PropErrors, StmtErrors};
pub use shape::Shape;
