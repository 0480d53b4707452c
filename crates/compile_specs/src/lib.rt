//! What it is to compile a script: whole and from one tree (eager), one function alone, and what is shown of a script where only
//! some of its functions are wanted. Definitions, and rows computed on small scripts.
//!
//! They stand above the code of functions (emit_stmts) and the names that inner functions close over (parse_track). Every way
//! to compile is held against them: lazy_compile's of one function from its extent, and compile_shown's. What a command prints
//! of a file is said of them in session_specs.
#![tactic(auto)]
