//! Code of whole functions.
//!
//! It stands on the code of statements, whose definitions say what a function's code is (`specs/Functions.antt` of
//! emit_stmts). What a function does before its body stands in `params`; the var names of a body that begin with the values
//! of parameters in `copies`; what stands at the top of a body in `tops`; bodies in `bodies`; and functions with their
//! stencils in `stencils`.
//!
//! `function` makes the stencil of a function, where its scopes and the extents of the functions directly in it are handed
//! in; its clause is that of `specs/FunctionCode.antt`. Which functions these are, and the chain at each, is found by
//! scope_inner, which stands beside this crate.
#![tactic(auto)]

pub mod bodies;
pub mod copies;
pub mod params;
pub mod sites;
pub mod stencils;
pub mod tops;

pub use stencils::function;
