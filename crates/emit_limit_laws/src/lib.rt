//! The counts of every script that is read without an error are within what its code and its scopes ask for: definitions and
//! proofs alone.
//!
//! It stands on the crates that ask for such bounds, scope_analysis, emit_exprs, emit_stmts and emit_functions: on arguments
//! and items, on scopes entered one in another, slots, chains, and inner functions by rising start. What is known of a script
//! comes from script_grammar (its tree, and how deep its tokens are), parse_track (that it has no early error), and
//! grammar_start_laws and script_scanner (its tokens rise, and are no more than its bytes).
//!
//! Its main laws are over the two records of `specs/Limits.antt` that say what is known, `ScriptStands` and `FunctionStands`,
//! and the two that say all bounds, `ScriptWithin` and `FunctionWithin`. The script of a file stands well (`proofs/Files.antt`).
//! A script that stands well is within all bounds, and each function directly in it stands well under the chain that it gets
//! (`proofs/Scripts.antt`); the same holds of a function that stands well (`proofs/Functions.antt`). Who compiles function
//! after function so meets every bound that is asked of it; that all functions of a script at any depth are within their
//! bounds is `proofs/EveryFunction.antt`.
//!
//! It also says what holds of every function that compiling a script lists (`Site` of compile_specs), at any depth:
//! - The parameters of all functions start at offsets that rise strictly, and there are fewer functions than 2^32
//!   (`proofs/RisingSites.antt`).
//! - The functions that are listed are as many as the regions of functions that the script tells (`proofs/SiteCounts.antt`,
//!   `proofs/TellingFunctions.antt`).
//! - Where no token that is a name is empty, no name is that the script or a function binds, nor the name of a function
//!   (`proofs/FullScripts.antt`).
#![tactic(auto)]
