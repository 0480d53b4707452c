//! Scopes that are entered and left.
ghost use Rattle.std.specs.Prelude.{◌≡◌, ◌∷◌, true, OnOk, IfOk};
ghost use Rattle.stencil_data.specs.Fits.{LinksFit};
ghost use Rattle.bytecode_buf.specs.Width.{first_of};
ghost use Rattle.emit_exprs.specs.Sites.{EmitsAt};
ghost use Rattle.emit_exprs.specs.Steps.{is_counted};
ghost use Rattle.emit_stmts.specs.Frames as frames;
ghost use Rattle.emit_stmts.specs.Positions.{position_of};
ghost use Rattle.emit_stmts.specs.Scoping.{scope_in, hidden_in, enters};
ghost use Rattle.emit_stmts.specs.Stmts as code;

use crate::links::scope_link;
use crate::stmt_context::StmtContext;
use bytecode_buf::{CodeBuf, Op};
use emit_exprs::steps::{counted, plain};
use std::alloc::AllocError;
use stencil_data::{BindKind, Binding, Chain, Slot};

/// Whether the scope with this number has an environment.
pub fn has_env(site: &StmtContext, number: usize) -> bool
    ensures { result ≡ frames.has_env (scope_in site.now number) }
{
    match site.scopes.get(number) {
        Some(scope) => scope.env_slots > 0,
        None => false,
    }
}

/// Pushes the environment of a scope, where it has one.
pub fn push_env(
    out: &mut CodeBuf,
    site: &StmtContext,
    op: Op,
    number: usize,
) -> Result<(), AllocError>
    requires counted { is_counted op ≡ true }
    requires wide { first_of op ≡ 4 }
    ensures { OnOk result (EmitsAt site.now.exprs out.old out.new (code.push_env op (scope_in site.now number) number)) }
{
    if has_env(site, number) {
        Ok(counted(out, op, number as u32)?)
    } else {
        Ok(())
    }
}

/// Pops the environment of a scope, where it has one.
pub fn leave_scope(out: &mut CodeBuf, site: &StmtContext, number: usize) -> Result<(), AllocError>
    ensures { OnOk result (EmitsAt site.now.exprs out.old out.new (frames.leave_scope (position_of site.now).scopes number)) }
{
    if has_env(site, number) {
        Ok(plain(out, Op::PopLexicalEnv)?)
    } else {
        Ok(())
    }
}

/// A new environment for a turn of a loop, where the scope of its head has one.
pub fn freshen(out: &mut CodeBuf, site: &StmtContext, number: usize) -> Result<(), AllocError>
    ensures { OnOk result (EmitsAt site.now.exprs out.old out.new (enters (frames.has_env (scope_in site.now number)) Op.FreshenLexicalEnv)) }
{
    if has_env(site, number) {
        Ok(plain(out, Op::FreshenLexicalEnv)?)
    } else {
        Ok(())
    }
}

/// The frame slot of a `let` or a `const`.
pub fn hidden_slot(binding: Binding) -> Option<u32>
    ensures { hidden_in result ≡ code.hidden_slot binding.kind binding.slot }
{
    match binding.kind {
        BindKind::Let => frame_slot(binding.slot),
        BindKind::Const => frame_slot(binding.slot),
        _ => None,
    }
}

fn frame_slot(slot: Slot) -> Option<u32>
    ensures { hidden_in result ≡ code.hidden_slot BindKind.Let slot }
{
    match slot {
        Slot::Frame(index) => Some(index),
        _ => None,
    }
}

/// The chain inside the scope with this number.
pub fn chain_inside(site: &StmtContext, number: usize) -> Result<Chain, AllocError>
    ensures chain { IfOk result (λ chain. chain ≡ frames.chain_link (scope_in site.now number) ∷ site.now.exprs.chain.now) }
    ensures slots { IfOk result (λ chain. LinksFit chain) }
{
    let alloc = site.exprs.alloc;
    let link = scope_link(alloc, site.exprs.texts, site.scopes, number)?;
    let chain = site.exprs.chain.push(alloc, link)?;
    Ok(chain)
}
