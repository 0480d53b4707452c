//! The functions that stand directly in a script or in a function, with the chain of scopes at each.
//!
//! It stands beside the emitters, on the definitions of what they emit: which functions stand directly in a part of a tree,
//! in the order of the source (`specs/Functions.antt` of scope_analysis), and the chain at each (`specs/Functions.antt` of
//! emit_stmts). Expressions are walked in `exprs`, lists and heads of loops in `parts`, statements in `stmts`, scripts and
//! functions in `functions`. Where a walk stands, and how it enters a scope, is in `places`; the links of chains are those of
//! emit_stmts.
//!
//! `script_sites` and `function_sites` find these functions where the scopes of the script or function are handed in; their
//! clauses are those of `specs/FunctionSites.antt`. `extents_of` gives their extents, which the emitters ask for. Only memory
//! can fail.
#![tactic(auto)]

mod exprs;
mod functions;
mod parts;
mod places;
mod sites;
mod stmts;

pub use functions::{function_sites, script_sites};
pub use sites::{FunctionSite, extents_of};
