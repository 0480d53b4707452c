//! One function compiled: its scopes, the functions directly in it, and its code.
//!
//! It stands on the crates that make scopes, find functions and emit code (scope_functions, scope_inner, emit_functions).
//! Whoever compiles a function, one after another in a tree of a whole script or one alone, stands on it.
//!
//! [`compile_function`] takes the tree of a function with the chain of the scopes around it, and answers its stencil and the
//! functions directly in it, each with the chain that it hands down. Its contract is that of `specs/Compiling.antt`: whatever
//! bodies stand where some were passed over, what is answered stands for the function that the tree has with these.
#![tactic(auto)]

ghost use Rattle.std.specs.Prelude.{ℕ, IfOk};
ghost use Rattle.script_grammar.specs.Tree.{Stmts};
ghost use Rattle.scope_inner.specs.Sites.{Sited};
ghost use Rattle.compile_function.specs.Compiling.{CanBeCompiled, IsCompiledFunction};

use emit_functions::function;
use scope_functions::scopes;
use scope_inner::{FunctionSite, extents_of, function_sites};
use script_grammar::tree::Func;
use std::alloc::{AllocError, Global};
use stencil_data::{Chain, ClosedName, FuncKind, FunctionStencil, Text};

/// A function that was compiled, and the functions directly in it, in the order of the source.
#[derive(Drop)]
pub struct CompiledFunction<'a> {
    /// In its code a function is named by its place among those directly inside.
    pub stencil: FunctionStencil,
    pub inside: Vec<FunctionSite<'a>>,
}

/// Compiles a function of this kind and name under the chain of the scopes around it. The name in the tree is not looked at.
/// `closed` has its names that functions inside it close over; atoms are indexes into `texts`. Only memory can fail.
pub fn compile_function<'a>(
    alloc: Global,
    func: &'a Func,
    kind: FuncKind,
    name: Option<u32>,
    closed: &[ClosedName],
    chain: &Chain,
    texts: &[Text],
) -> Result<CompiledFunction<'a>, AllocError>
    requires { (bodies : ℕ → Stmts) × (f : Sited) × CanBeCompiled texts.now bodies func.now kind name closed.now chain.now f }
    ensures { IfOk result (λ made. (bodies : ℕ → Stmts) (f : Sited) → CanBeCompiled texts.now bodies func.now kind name closed.now chain.now f
        → IsCompiledFunction texts.now bodies made.stencil made.inside.items f) }
{
    let scopes = scopes(alloc, func, kind, name, closed, texts)?;
    let inside = function_sites(alloc, func, &scopes, chain, texts)?;
    let extents = extents_of(alloc, &inside)?;
    let stencil = function(alloc, func, kind, name, scopes, extents, chain, texts)?;
    Ok(CompiledFunction { stencil, inside })
}
