//! A `return`, and what leaves the frames around it.
ghost use Rattle.std.specs.Prelude.{◌≡◌, Bool, List, [], OnOk, option_map};
ghost use Rattle.script_grammar.specs.Tree as model;
ghost use Rattle.script_grammar.specs.TreeLists.{maybe_expr_of};
ghost use Rattle.script_grammar.specs.TreeOf.{expr_of};
ghost use Rattle.bytecode_buf.specs.declared.waits.Wait.{Wait as ModelWait};
ghost use Rattle.emit_exprs.specs.Sites.{EmitsAt};
ghost use Rattle.emit_stmts.specs.Frames as around;
ghost use Rattle.emit_stmts.specs.Leaving.{has_code};
ghost use Rattle.emit_stmts.specs.Positions.{position_of, within, state, frame_in, frames_in};
ghost use Rattle.emit_stmts.specs.StmtCode.{RowWritten};
ghost use Rattle.emit_stmts.specs.Stmts as code;

use crate::bindings::value_or_undefined;
use crate::draft::Draft;
use crate::frames::Frame;
use crate::leaving::exits;
use crate::scoping::has_env;
use crate::stmt_context::StmtContext;
use bytecode_buf::{CodeBuf, Op};
use emit_exprs::steps::plain;
use script_grammar::tree::Expr;
use std::alloc::AllocError;

// Whether an instruction leaves this frame.
fn has_exit(site: &StmtContext, frame: Frame) -> bool
    ensures { result ≡ has_code (around.exit (position_of site.now).scopes (frame_in site.now.exprs.texts.now frame)) }
{
    match frame {
        Frame::Loop => false,
        Frame::KeysLoop => true,
        Frame::Switching => false,
        Frame::Labelled(_) => false,
        Frame::Entered(number) => has_env(site, number),
    }
}

// Whether an instruction leaves one of these frames.
fn have_exit(site: &StmtContext, frames: &[Frame]) -> bool
    ensures { result ≡ has_code (around.exits (position_of site.now).scopes (frames_in site.now.exprs.texts.now frames.now)) }
{
    for frame in frames {
        if has_exit(site, *frame) {
            return true;
        }
    }
    false
}

// Returns the value on top of the stack, out of all frames.
fn returning(out: &mut CodeBuf, site: &StmtContext) -> Result<(), AllocError>
    ensures { OnOk result (EmitsAt site.now.exprs out.old out.new
        (code.return_code [] (around.exits (position_of site.now).scopes (position_of site.now).frames))) }
{
    if have_exit(site, site.frames) {
        plain(out, Op::SetRval)?;
        exits(out, site, site.frames)?;
        plain(out, Op::RetRval)?;
        Ok(())
    } else {
        Ok(plain(out, Op::Return)?)
    }
}

/// A `return`.
pub fn return_stmt(
    out: &mut Draft,
    site: &StmtContext,
    value: &Option<Expr>,
) -> Result<(), AllocError>
    ensures { OnOk result ((waits : List ModelWait) (semi : Bool)
        → RowWritten (position_of site.now) (state out.old waits) (state out.new waits) out.old.next out.new.next
        (λ w. model.Return (maybe_expr_of (option_map (expr_of (within (position_of site.now) w)) value.now)) semi)) }
{
    value_or_undefined(&mut out.code, &site.exprs, value)?;
    returning(&mut out.code, site)?;
    Ok(())
}
