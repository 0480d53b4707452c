//! What holds of the code that the definitions give to every function and every script: definitions and proofs alone.
//!
//! It stands on emit_exprs and emit_stmts, which define that code, and on bytecode_flow_laws, by which properties of pieces of code
//! are put together.
#![tactic(auto)]
