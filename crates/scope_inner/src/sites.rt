//! Functions that were found, and their extents.
ghost use Rattle.std.specs.Prelude.{◌≡◌, List, map, IfOk};
ghost use Rattle.script_grammar.specs.Interpretation.{Interpretation};
ghost use Rattle.stencil_data.specs.LinkView.{LinkView};
ghost use Rattle.stencil_data.specs.Named.{NamedScope};
ghost use Rattle.scope_analysis.specs.Functions.{Inner};
ghost use Rattle.emit_stmts.specs.Functions as defined;
ghost use Rattle.scope_inner.specs.Sites.{extent_at, sited, sited_in};

use script_grammar::tree::Func;
use std::alloc::{AllocError, Global};
use stencil_data::{Chain, Extent, FuncKind};

/// A function that stands directly in a script or in another function: how it is written, the atom of its name, and the
/// chain of the scopes around it.
#[derive(Drop)]
pub struct FunctionSite<'a> {
    pub func: &'a Func,
    pub kind: FuncKind,
    pub name: Option<u32>,
    pub chain: Chain,
}

/// The extents of functions that were found, in the same order: those that a script or function has of the functions
/// directly in it, where these are they.
pub fn extents_of(alloc: Global, sites: &[FunctionSite]) -> Result<Vec<Extent>, AllocError>
    ensures extents { IfOk result (λ extents. extents.items ≡ map extent_at sites.now) }
    ensures inner { IfOk result (λ extents. (i : Interpretation) (scopes : List NamedScope) (outer : List LinkView) (inner : List Inner)
        → map (sited i) sites.now ≡ map (sited_in scopes outer) inner → extents.items ≡ defined.extents_of inner) }
{
    let mut extents = Vec::with_capacity(alloc, sites.len())?;
    for site in sites {
        extents.push(Extent {
            start: site.func.start,
            end: site.func.end,
        })?;
    }
    Ok(extents)
}
