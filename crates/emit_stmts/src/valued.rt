//! Statements of expressions.
ghost use Rattle.std.specs.Prelude.{ℕ, Bool, List, OnOk, map};
ghost use Rattle.script_grammar.specs.Tree as model;
ghost use Rattle.script_grammar.specs.TreeLists.{binds_of};
ghost use Rattle.script_grammar.specs.TreeOf.{expr_of, bind_of};
ghost use Rattle.bytecode_buf.specs.Emits.{Emits};
ghost use Rattle.bytecode_buf.specs.declared.waits.Wait.{Wait as ModelWait};
ghost use Rattle.emit_stmts.specs.Positions.{position_of, within, state};
ghost use Rattle.emit_stmts.specs.StmtCode.{RowWritten};
ghost use Rattle.emit_stmts.specs.Stmts as code;

use crate::bindings::bind_names;
use crate::draft::Draft;
use crate::stmt_context::StmtContext;
use bytecode_buf::{CodeBuf, Op};
use emit_exprs::steps::plain;
use emit_exprs::{Use, emit_expr};
use script_grammar::token::Decl;
use script_grammar::tree::{Bind, Expr};
use std::alloc::AllocError;

// An expression statement's value is the script's result, or dropped.
fn result(out: &mut CodeBuf, is_script: bool) -> Result<(), AllocError>
    ensures { OnOk result ((texts : List (List ℕ)) → Emits texts out.old out.new (code.result_code is_script)) }
{
    if is_script {
        Ok(plain(out, Op::SetRval)?)
    } else {
        Ok(plain(out, Op::Pop)?)
    }
}

/// An expression statement.
pub fn value_stmt(out: &mut Draft, site: &StmtContext, value: &Expr) -> Result<(), AllocError>
    ensures { OnOk result ((waits : List ModelWait) (semi : Bool)
        → RowWritten (position_of site.now) (state out.old waits) (state out.new waits) out.old.next out.new.next
        (λ w. model.Value (expr_of (within (position_of site.now) w) value.now) semi)) }
{
    emit_expr(&mut out.code, &site.exprs, value, Use::Plainly)?;
    result(&mut out.code, site.is_script)?;
    Ok(())
}

/// A `throw`.
pub fn throw_stmt(out: &mut Draft, site: &StmtContext, value: &Expr) -> Result<(), AllocError>
    ensures { OnOk result ((waits : List ModelWait) (semi : Bool)
        → RowWritten (position_of site.now) (state out.old waits) (state out.new waits) out.old.next out.new.next
        (λ w. model.Throw (expr_of (within (position_of site.now) w) value.now) semi)) }
{
    emit_expr(&mut out.code, &site.exprs, value, Use::Plainly)?;
    plain(&mut out.code, Op::Throw)?;
    Ok(())
}

/// A `var`, `let` or `const` statement.
pub fn binding_stmt(
    out: &mut Draft,
    site: &StmtContext,
    decl: Decl,
    binds: &[Bind],
) -> Result<(), AllocError>
    ensures { OnOk result ((waits : List ModelWait) (semi : Bool)
        → RowWritten (position_of site.now) (state out.old waits) (state out.new waits) out.old.next out.new.next
        (λ w. model.Binding decl (binds_of (map (bind_of (within (position_of site.now) w)) binds.now)) semi)) }
{
    bind_names(&mut out.code, &site.exprs, decl, binds)?;
    Ok(())
}
