//! The names of a script that inner functions close over are those of its scopes: definitions and proofs alone.
//!
//! Two crates say which names these are. parse_track says it of what a script tells, region by region, for all functions
//! in one list; scope_analysis of the scopes of one function, whose bindings have environment slots where they are closed
//! over. The laws here say that both speak of the same names, by the number of the scope, so that what a track answers is
//! what the scopes of each function are made with.
#![tactic(auto)]
