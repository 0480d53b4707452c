// Where an expression stands.
ghost use Rattle.std.specs.Prelude.{◌^◌, ◌<◌, ◌≤◌, length};
ghost use Rattle.stencil_data.specs.Fits.{LinksFit};
ghost use Rattle.emit_exprs.specs.OneProof.{LinksFit-prop};
ghost use Rattle.emit_exprs.specs.Rising.{Rises, Rises-prop};

use std::alloc::Global;
use stencil_data::{Chain, Extent, Text};

/// What is the same for all of an expression: the scopes around it, the texts of its atoms, and the extents of the
/// functions directly in its function, by rising start.
#[derive(Clone, Copy)]
pub struct Site<'a> {
    pub alloc: Global,
    pub chain: &'a Chain,
    pub texts: &'a [Text],
    pub inner: &'a [Extent],
    ghost links: { length chain.now ≤ 65000 },
    ghost slots: { LinksFit chain.now } by { LinksFit-prop chain.now },
    ghost few: { length inner.now < 2 ^ 32 },
    ghost ordered: { Rises 0 inner.now } by { Rises-prop 0 inner.now },
}
