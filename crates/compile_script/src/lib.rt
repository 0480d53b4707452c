//! A script's own part compiled: its scopes, the functions directly in it, and its code.
//!
//! It stands on the crates that make scopes, find functions and emit code (scope_analysis, scope_inner, emit_stmts), as
//! compile_function does, whose laws on names it shares. What a script is before any function of it is compiled, is made with it.
//!
//! [`compile_script`] takes a script's own statements, and answers its stencil and the functions directly in it, each with the
//! chain that it hands down. Its contract is that of `specs/Compiling.antt`: whatever bodies stand where some were passed over,
//! what is answered stands for the script that the statements are with these. No body of a function is looked at.
#![tactic(auto)]

ghost use Rattle.std.specs.Prelude.{ℕ, IfOk};
ghost use Rattle.script_grammar.specs.Tree.{Stmts};
ghost use Rattle.compile_script.specs.Compiling.{CanBeCompiled, CompilesTo};

use emit_stmts::scripts::top as emit_top;
use scope_analysis::top_scopes;
use scope_inner::{FunctionSite, extents_of, script_sites};
use script_grammar::tree::Stmt;
use std::alloc::{AllocError, Global};
use stencil_data::{ClosedName, FunctionStencil, Text};

/// A script's own part compiled, and the functions directly in it, in the order of the source.
#[derive(Drop)]
pub struct CompiledScript<'a> {
    /// In its code a function is named by its place among those directly inside.
    pub stencil: FunctionStencil,
    pub inside: Vec<FunctionSite<'a>>,
}

/// Compiles the script that has these statements, whose text is n bytes long. `closed` has its names that functions in it
/// close over; atoms are indexes into `texts`. Only memory can fail.
pub fn compile_script<'a>(
    alloc: Global,
    top: &'a [Stmt],
    end: u32,
    closed: &[ClosedName],
    texts: &[Text],
) -> Result<CompiledScript<'a>, AllocError>
    requires { (bodies : ℕ → Stmts) × (items : Stmts) × CanBeCompiled texts.now bodies top.now closed.now items }
    ensures { IfOk result (λ made. CompilesTo texts.now top.now closed.now end made.stencil made.inside.items) }
{
    let scopes = top_scopes(alloc, top, closed, texts)?;
    let inside = script_sites(alloc, top, &scopes, texts)?;
    let extents = extents_of(alloc, &inside)?;
    let stencil = emit_top(alloc, top, scopes, extents, end, texts)?;
    Ok(CompiledScript { stencil, inside })
}
