//! Scopes that are entered, and the sites inside them.
ghost use Rattle.std.specs.Prelude.{◌≡◌, ◌<◌, ◌≤◌, ◌+◌, ◌^◌, ◌∷◌, ℕ, List, OnOk, IfOk, length};
ghost use Rattle.stencil_data.specs.Fits.{LinksFit};
ghost use Rattle.stencil_data.specs.StandsFor.{named_bindings};
ghost use Rattle.bytecode_buf.specs.Emits.{Emits};
ghost use Rattle.emit_exprs.specs.Sites.{EmitsAt};
ghost use Rattle.emit_stmts.specs.Positions.{position_of, entered, frames_in};
ghost use Rattle.emit_stmts.specs.Scoping.{AllBelow, hiding_each, scope_in};
ghost use Rattle.emit_stmts.specs.Stmts as code;

use crate::frames::Frame;
use crate::scoping::hidden_slot;
use crate::stmt_context::StmtContext;
use bytecode_buf::{CodeBuf, Op};
use emit_exprs::Site;
use emit_exprs::steps::{counted, plain};
use std::alloc::{AllocError, Global};
use stencil_data::{Binding, Chain};

// The frame slots of the `let` and `const` names among these.
fn hidden_slots(alloc: Global, bindings: &[Binding]) -> Result<Vec<u32>, AllocError>
    ensures { IfOk result (λ slots. (texts : List (List ℕ)) → slots.items ≡ code.hidden_slots (named_bindings texts bindings.now)) }
{
    let mut slots = Vec::new(alloc);
    for binding in bindings {
        if let Some(slot) = hidden_slot(*binding) {
            slots.push(slot)?;
        }
    }
    Ok(slots)
}

// The marker on top of the stack into these slots.
fn hide_each(out: &mut CodeBuf, slots: &[u32]) -> Result<(), AllocError>
    requires { AllBelow (2 ^ 24) slots.now }
    ensures { OnOk result ((texts : List (List ℕ)) → Emits texts out.old out.new (hiding_each slots.now)) }
{
    for slot in slots {
        counted(out, Op::InitLexical, *slot)?;
    }
    Ok(())
}

// These slots are not initialized yet.
fn hide(out: &mut CodeBuf, slots: &[u32]) -> Result<(), AllocError>
    requires { AllBelow (2 ^ 24) slots.now }
    ensures { OnOk result ((texts : List (List ℕ)) → Emits texts out.old out.new (code.hiding slots.now)) }
{
    if slots.is_empty() {
        return Ok(());
    }
    plain(out, Op::Uninitialized)?;
    hide_each(out, slots)?;
    plain(out, Op::Pop)?;
    Ok(())
}

/// The `let` and `const` names of the scope with this number are not initialized yet.
pub fn hide_scope(out: &mut CodeBuf, site: &StmtContext, number: usize) -> Result<(), AllocError>
    ensures { OnOk result (EmitsAt site.now.exprs out.old out.new (code.hiding (code.hidden_slots (scope_in site.now number).bindings))) }
{
    match site.scopes.get(number) {
        Some(scope) => {
            let slots = hidden_slots(site.exprs.alloc, &scope.bindings)?;
            hide(out, &slots)?;
            Ok(())
        }
        None => Ok(()),
    }
}

/// The site inside a scope that was entered: under this chain, which has one more link, with these frames around.
pub fn site_inside<'a, 'b: 'a>(
    site: &StmtContext<'b>,
    chain: &'a Chain,
    frames: &'a [Frame],
) -> StmtContext<'a>
    requires room { 0 < site.now.room }
    requires links { length chain.now ≡ length site.now.exprs.chain.now + 1 }
    requires slots { LinksFit chain.now }
    ensures { position_of result ≡ entered chain.now (frames_in site.now.exprs.texts.now frames.now) (position_of site.now) }
{
    let exprs = Site {
        alloc: site.exprs.alloc,
        chain,
        texts: site.exprs.texts,
        inner: site.exprs.inner,
    };
    StmtContext {
        exprs,
        frames,
        scopes: site.scopes,
        is_script: site.is_script,
        room: site.room - 1,
    }
}
