//! The bodies of functions.
ghost use Rattle.std.specs.Prelude.{◌≡◌, ◌∷◌, ◌+◌, ◌<◌, ◌≤◌, ◌^◌, [], true, length, OnOk, IfOk};
ghost use Rattle.stencil_data.specs.Fits.{LinksFit};
ghost use Rattle.emit_stmts.specs.Frames as around;
ghost use Rattle.emit_stmts.specs.Positions.{position_of, state};
ghost use Rattle.emit_stmts.specs.Scoping.{scope_in};
ghost use Rattle.emit_functions.specs.BodyCode.{BodyWritten, BracedWritten, VarsEntered, is_body_var};

use crate::copies::copies;
use crate::sites::{bindings_of, site_under};
use crate::tops::top_scope;
use bytecode_buf::{Op, Wait};
use emit_exprs::steps::plain;
use emit_exprs::{Use, emit_expr};
use emit_stmts::scoping::{chain_inside, has_env, push_env};
use emit_stmts::{Draft, StmtContext};
use script_grammar::tree::{FuncBody, Param, Stmt};
use std::alloc::AllocError;
use stencil_data::{Chain, Link, ScopeKind};

// Whether the scope with this number is that of a body's var names.
fn has_vars(site: &StmtContext, number: usize) -> bool
    ensures { result ≡ is_body_var (scope_in site.now number).kind }
{
    match site.scopes.get(number) {
        Some(scope) => matches!(scope.kind, ScopeKind::FunctionBodyVar),
        None => false,
    }
}

// The chain inside the scope of a body's var names, as if it had none of them.
fn chain_passing(site: &StmtContext, number: usize) -> Result<Chain, AllocError>
    ensures chain { IfOk result (λ chain. chain ≡ record {
      kind = ScopeKind.FunctionBodyVar;
      env = around.has_env
          (scope_in site.now number);
      names = [];
    } ∷ site.now.exprs.chain.now) }
    ensures slots { IfOk result (λ chain. LinksFit chain) }
{
    let link = Link {
        kind: ScopeKind::FunctionBodyVar,
        env: has_env(site, number),
        names: Vec::new(site.exprs.alloc),
    };
    let chain = site.exprs.chain.push(site.exprs.alloc, link)?;
    Ok(chain)
}

// Enters the scope of a body's var names, which is the next one, and gives those that are named as parameters the values
// of these. Answers the chain inside.
fn enter_vars(out: &mut Draft, site: &StmtContext, params: &[Param]) -> Result<Chain, AllocError>
    requires links { length site.now.exprs.chain.now ≤ 60002 }
    requires vars { is_body_var (scope_in site.now out.old.next).kind ≡ true }
    ensures code { OnOk result (VarsEntered site.now out.old.code out.new.code out.old.next params.now) }
    ensures notes { OnOk result (out.new.notes.items ≡ out.old.notes.items) }
    ensures next { OnOk result (out.old.next + 1 < 2 ^ 64 → out.new.next ≡ out.old.next + 1) }
    ensures chain { IfOk result (λ chain. chain ≡ around.chain_link (scope_in site.now out.old.next) ∷ site.now.exprs.chain.now) }
    ensures slots { IfOk result (λ chain. LinksFit chain) }
{
    let number = out.next;
    push_env(&mut out.code, site, Op::PushVarEnv, number)?;
    out.next = number.wrapping_add(1);
    let chain = chain_inside(site, number)?;
    let passing = chain_passing(site, number)?;
    let inside = site_under(site, &chain);
    let bindings = bindings_of(site, number);
    copies(&mut out.code, &inside.exprs, &passing, params, bindings)?;
    Ok(chain)
}

// A body in braces.
fn braced_body(
    out: &mut Draft,
    waits: &mut Vec<Wait>,
    site: &StmtContext,
    params: &[Param],
    items: &[Stmt],
) -> Result<(), AllocError>
    requires links { length site.now.exprs.chain.now ≤ 60002 }
    ensures { OnOk result (BracedWritten (position_of site.now) (state out.old waits.old.items)
        (state out.new waits.new.items) out.old.next params.now items.now) }
{
    if has_vars(site, out.next) {
        let chain = enter_vars(out, site, params)?;
        let inside = site_under(site, &chain);
        top_scope(out, waits, &inside, items)?;
        plain(&mut out.code, Op::RetRval)?;
        Ok(())
    } else {
        let inside = site_under(site, site.exprs.chain);
        top_scope(out, waits, &inside, items)?;
        plain(&mut out.code, Op::RetRval)?;
        Ok(())
    }
}

/// Appends the code of a function's body, where it was read.
pub fn emit_body(
    out: &mut Draft,
    waits: &mut Vec<Wait>,
    site: &StmtContext,
    params: &[Param],
    body: &FuncBody,
) -> Result<(), AllocError>
    requires links { length site.now.exprs.chain.now ≤ 60002 }
    ensures { OnOk result (BodyWritten (position_of site.now) (state out.old waits.old.items)
        (state out.new waits.new.items) out.old.next params.now body.now) }
{
    match body {
        FuncBody::Braced(items) => Ok(braced_body(out, waits, site, params, items)?),
        FuncBody::Short(value) => {
            emit_expr(&mut out.code, &site.exprs, value, Use::Plainly)?;
            plain(&mut out.code, Op::Return)?;
            Ok(())
        }
        FuncBody::Passed => Ok(()),
    }
}
