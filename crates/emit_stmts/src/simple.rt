//! Statements without parts.
ghost use Rattle.std.specs.Prelude.{ℕ, Bool, List, OnOk};
ghost use Rattle.script_grammar.specs.Interpretation.{maybe_named};
ghost use Rattle.script_grammar.specs.Tree as model;
ghost use Rattle.bytecode_buf.specs.declared.waits.Wait.{Wait as ModelWait};
ghost use Rattle.emit_stmts.specs.Positions.{position_of, within, state};
ghost use Rattle.emit_stmts.specs.StmtCode.{RowWritten};

use crate::draft::Draft;
use crate::leaving::{Goal, leaving};
use crate::stmt_context::StmtContext;
use bytecode_buf::{Op, Wait};
use emit_exprs::steps::plain;
use script_grammar::tree::Ident;
use std::alloc::AllocError;

/// A `debugger` statement.
pub fn debugger_stmt(out: &mut Draft, site: &StmtContext) -> Result<(), AllocError>
    ensures { OnOk result ((waits : List ModelWait) (semi : Bool)
        → RowWritten (position_of site.now) (state out.old waits) (state out.new waits) out.old.next out.new.next (λ w. model.Debugger semi)) }
{
    plain(&mut out.code, Op::Debugger)?;
    Ok(())
}

/// A `break`.
pub fn break_stmt(
    out: &mut Draft,
    waits: &mut Vec<Wait>,
    site: &StmtContext,
    label: Option<Ident>,
) -> Result<(), AllocError>
    ensures { OnOk result ((at : ℕ) (semi : Bool) → RowWritten (position_of site.now) (state out.old waits.old.items)
        (state out.new waits.new.items) out.old.next out.new.next (λ w. model.Break at (maybe_named (within (position_of site.now) w) label) semi)) }
{
    leaving(&mut out.code, waits, site, Goal::Out(label), site.frames)?;
    Ok(())
}

/// A `continue`.
pub fn continue_stmt(
    out: &mut Draft,
    waits: &mut Vec<Wait>,
    site: &StmtContext,
    label: Option<Ident>,
) -> Result<(), AllocError>
    ensures { OnOk result ((at : ℕ) (semi : Bool) → RowWritten (position_of site.now) (state out.old waits.old.items)
        (state out.new waits.new.items) out.old.next out.new.next
        (λ w. model.Continue at (maybe_named (within (position_of site.now) w) label) semi)) }
{
    leaving(&mut out.code, waits, site, Goal::Again(label), site.frames)?;
    Ok(())
}
