//! Heads of loops.
ghost use Rattle.std.specs.Prelude.{◌≡◌, ℕ, List, OnOk};
ghost use Rattle.emit_exprs.specs.Sites.{EmitsAt};
ghost use Rattle.emit_stmts.specs.HeadCode.{KeysTested, Tested, freshen_head};
ghost use Rattle.emit_stmts.specs.Positions.{position_of};

use crate::scoping::freshen;
use crate::stmt_context::StmtContext;
use bytecode_buf::{Aim, CodeBuf, Op, Wait, jump_to};
use emit_exprs::steps::plain;
use emit_exprs::{Use, emit_expr};
use script_grammar::tree::Expr;
use std::alloc::AllocError;

/// A new environment for a turn of a loop whose head has the scope with this number, if any.
#[tactic(auto, using(emit_exprs::proofs::Singles::emits_nothing))]
pub fn freshen_head(
    out: &mut CodeBuf,
    site: &StmtContext,
    head: Option<usize>,
) -> Result<(), AllocError>
    ensures { OnOk result (EmitsAt site.now.exprs out.old out.new (freshen_head (position_of site.now).scopes head)) }
{
    match head {
        Some(number) => Ok(freshen(out, site, number)?),
        None => Ok(()),
    }
}

/// The test of a loop, which goes after it where it fails.
pub fn loop_test(
    out: &mut CodeBuf,
    waits: &mut Vec<Wait>,
    site: &StmtContext,
    level: usize,
    test: &Option<Expr>,
) -> Result<(), AllocError>
    ensures { OnOk result (Tested site.now out.old waits.old.items out.new waits.new.items level test.now) }
{
    match test {
        Some(value) => {
            emit_expr(out, &site.exprs, value, Use::Plainly)?;
            jump_to(out, Op::JumpIfFalse, Aim::Break(level), waits)?;
            Ok(())
        }
        None => Ok(()),
    }
}

/// The test whether a for-in has one more key, which goes after the loop where it has none.
pub fn keys_test(out: &mut CodeBuf, waits: &mut Vec<Wait>, level: usize) -> Result<(), AllocError>
    ensures { OnOk result (KeysTested out.old waits.old.items out.new waits.new.items level) }
{
    plain(out, Op::LoopHead)?;
    plain(out, Op::MoreIter)?;
    plain(out, Op::IsNoIter)?;
    jump_to(out, Op::JumpIfTrue, Aim::Break(level), waits)?;
    Ok(())
}
