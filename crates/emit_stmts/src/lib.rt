//! Code of statements, functions and scripts.
//!
//! It stands on the code of expressions. Its definitions give the code of every form of a statement, one equation for
//! each (`specs/Stmts.antt`), the frames around a statement and what leaves them (`specs/Frames.antt`), and the finished
//! scripts of functions (`specs/Functions.antt`).
//!
//! `emit_stmt` appends the code of a whole statement (`stmts`), for every form of a statement; its clause is that of
//! `specs/StmtCode.antt`. It is one cycle with a function for each row of the table of code. Below it stand the site of a
//! statement with the frames around it (`stmt_context`, `frames`), the jumps out of these (`leaving`, `returning`), scopes
//! that are entered and left (`entering`, `inside`, `scoping`) and the links that they make (`links`), functions that are
//! declared (`functions`), whether there are any names for a scope (`declares`), and the rows without statements in them
//! (`simple`, `valued`, `bindings`, `heads`, `storing`, `switching`, `trying`).
//!
//! `top` makes the script's own stencil (`scripts`), where its scopes and the extents of the functions directly in it are
//! handed in; its clause is that of `specs/ScriptCode.antt`. The stencils of functions, which `specs/Functions.antt` defines,
//! are made by emit_functions, and scope_inner finds the functions directly in a tree with the chains at them.
#![tactic(auto)]

pub mod bindings;
pub mod declares;
mod draft;
pub mod entering;
pub mod frames;
pub mod functions;
pub mod heads;
pub mod inside;
pub mod leaving;
pub mod links;
pub mod returning;
pub mod scoping;
pub mod scripts;
pub mod simple;
pub mod stmt_context;
pub mod stmts;
pub mod storing;
pub mod switching;
pub mod trying;
pub mod valued;

pub use draft::Draft;
pub use frames::Frame;
pub use stmt_context::StmtContext;
