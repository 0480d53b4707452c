//! What stands around a statement in its function.
ghost use Rattle.std.specs.Prelude.{◌≡◌, ◌∷◌, IfOk};
ghost use Rattle.emit_stmts.specs.Positions.{position_of, framed, frames_in};

use crate::stmt_context::StmtContext;
use emit_exprs::Site;
use std::alloc::{AllocError, Global};

/// A statement around, or a scope that was entered.
#[derive(Clone, Copy)]
pub enum Frame {
    Loop,
    /// A for-in, which has its keys and the present one on the stack.
    KeysLoop,
    Switching,
    /// A labelled statement, by the atom of its label.
    Labelled(u32),
    /// A scope, by its number in its function.
    Entered(usize),
}

/// These frames, and one inside them.
pub fn frames_inside(
    alloc: Global,
    inner: Frame,
    around: &[Frame],
) -> Result<Vec<Frame>, AllocError>
    ensures { IfOk result (λ frames. frames.items ≡ inner ∷ around.now) }
{
    let mut frames = Vec::new(alloc);
    frames.push(inner)?;
    frames.extend_from_slice(around)?;
    Ok(frames)
}

/// The same site with these frames around.
pub fn framed_site<'a, 'b: 'a>(site: &StmtContext<'b>, frames: &'a [Frame]) -> StmtContext<'a>
    ensures { position_of result ≡ framed (frames_in site.now.exprs.texts.now frames.now) (position_of site.now) }
{
    let exprs: Site<'a> = Site {
        alloc: site.exprs.alloc,
        chain: site.exprs.chain,
        texts: site.exprs.texts,
        inner: site.exprs.inner,
    };
    StmtContext {
        exprs,
        frames,
        scopes: site.scopes,
        is_script: site.is_script,
        room: site.room,
    }
}
