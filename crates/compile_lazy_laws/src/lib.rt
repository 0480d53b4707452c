//! Functions of a script that are compiled one after another, each from its extent, and merged into the parts that a lazy
//! first pass made: definitions and lemmas alone.
//!
//! It stands on lazy_compile, which compiles a function alone, on stencil_merge, which puts it among the others, and on
//! compile_site_laws. Whoever compiles the functions of a script that are shown, by their records, stands on it. The laws say
//! that what compiling a function alone asks is known of every function of a script without errors, under the chain that it
//! gets (`proofs/Asking.antt`); that the records which a function's record names have the extents of the functions directly in
//! it (`proofs/Inside.antt`); that the functions which no record names as directly inside are those directly in the script, in
//! their order (`proofs/Outermost.antt`); and that the shown functions, merged in order of number, give what is shown of the
//! script (`proofs/Merging.antt`).
#![tactic(auto)]
