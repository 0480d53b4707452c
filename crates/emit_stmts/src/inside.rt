//! A scope that was entered, and what stands around the statements in it.
ghost use Rattle.std.specs.Prelude.{◌≡◌, ◌∷◌, ◌+◌, ◌<◌, ◌^◌, ◌&&◌, nat_lt, OnOk, IfOk, length};
ghost use Rattle.stencil_data.specs.Fits.{LinksFit};
ghost use Rattle.emit_exprs.specs.Sites.{EmitsAt};
ghost use Rattle.emit_stmts.specs.Frames as around;
ghost use Rattle.emit_stmts.specs.Positions.{World, position_of, setting, entered, frames_in};
ghost use Rattle.emit_stmts.specs.Scoping.{scope_in};
ghost use Rattle.emit_stmts.specs.Stmts as code;

use crate::draft::Draft;
use crate::entering::{hide_scope, site_inside};
use crate::frames::{Frame, frames_inside};
use crate::scoping::{chain_inside, push_env};
use crate::stmt_context::StmtContext;
use bytecode_buf::Op;
use std::alloc::AllocError;
use stencil_data::Chain;

/// A scope that was entered: its number, and the chain and the frames inside it.
#[derive(Drop)]
pub struct InnerScope {
    pub number: usize,
    pub chain: Chain,
    pub frames: Vec<Frame>,
}

/// Whether a scope is entered: where something is declared in it, and there is room for one more.
pub fn may_enter(site: &StmtContext, declares: bool) -> bool
    ensures { result ≡ (declares && nat_lt 0 site.now.room) }
{
    declares && site.room > 0
}

/// Pushes the environment of the next scope, whose names are initialized already.
pub fn push_next(out: &mut Draft, site: &StmtContext) -> Result<InnerScope, AllocError>
    ensures code { OnOk result (EmitsAt site.now.exprs out.old.code out.new.code
        (code.push_env Op.PushLexicalEnv (scope_in site.now out.old.next) out.old.next)) }
    ensures notes { OnOk result (out.new.notes.items ≡ out.old.notes.items) }
    ensures next { OnOk result (out.old.next + 1 < 2 ^ 64 → out.new.next ≡ out.old.next + 1) }
    ensures number { IfOk result (λ scope. scope.number ≡ out.old.next) }
    ensures chain { IfOk result (λ scope. scope.chain ≡ around.chain_link (scope_in site.now out.old.next) ∷ site.now.exprs.chain.now) }
    ensures slots { IfOk result (λ scope. LinksFit scope.chain) }
    ensures frames { IfOk result (λ scope. scope.frames.items ≡ Frame.Entered out.old.next ∷ site.now.frames.now) }
{
    let number = out.next;
    push_env(&mut out.code, site, Op::PushLexicalEnv, number)?;
    out.next = number.wrapping_add(1);
    let chain = chain_inside(site, number)?;
    let frames = frames_inside(site.exprs.alloc, Frame::Entered(number), site.frames)?;
    Ok(InnerScope {
        number,
        chain,
        frames,
    })
}

/// Enters the next scope.
pub fn enter_next(out: &mut Draft, site: &StmtContext) -> Result<InnerScope, AllocError>
    ensures code { OnOk result ((w : World) → EmitsAt site.now.exprs out.old.code out.new.code
        (code.enter_scope (setting (position_of site.now) w) out.old.next)) }
    ensures notes { OnOk result (out.new.notes.items ≡ out.old.notes.items) }
    ensures next { OnOk result (out.old.next + 1 < 2 ^ 64 → out.new.next ≡ out.old.next + 1) }
    ensures number { IfOk result (λ scope. scope.number ≡ out.old.next) }
    ensures chain { IfOk result (λ scope. scope.chain ≡ around.chain_link (scope_in site.now out.old.next) ∷ site.now.exprs.chain.now) }
    ensures slots { IfOk result (λ scope. LinksFit scope.chain) }
    ensures frames { IfOk result (λ scope. scope.frames.items ≡ Frame.Entered out.old.next ∷ site.now.frames.now) }
{
    let scope = push_next(out, site)?;
    hide_scope(&mut out.code, site, scope.number)?;
    Ok(scope)
}

/// The site inside a scope that was entered.
pub fn within_scope<'a, 'b: 'a>(site: &StmtContext<'b>, scope: &'a InnerScope) -> StmtContext<'a>
    requires room { 0 < site.now.room }
    requires links { length scope.now.chain ≡ length site.now.exprs.chain.now + 1 }
    requires slots { LinksFit scope.now.chain }
    ensures { position_of result ≡ entered scope.now.chain (frames_in site.now.exprs.texts.now scope.now.frames.items) (position_of site.now) }
{
    site_inside(site, &scope.chain, &scope.frames)
}
