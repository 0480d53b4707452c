//! Where the parts of a function stand.
ghost use Rattle.std.specs.Prelude.{◌≡◌, ◌≤◌, length};
ghost use Rattle.stencil_data.specs.Fits.{LinksFit};
ghost use Rattle.stencil_data.specs.StandsFor.{named_bindings};
ghost use Rattle.emit_stmts.specs.Positions.{position_of};
ghost use Rattle.emit_stmts.specs.Scoping.{scope_in};
ghost use Rattle.emit_functions.specs.BodyCode.{at_body};

use emit_exprs::Site;
use emit_stmts::StmtContext;
use stencil_data::{Binding, Chain};

/// How many scopes may be entered one in another in a function's body, its own and that of its var names left out.
pub const ROOM: usize = 4997;

/// The site at the top of a function's body, under this chain.
pub fn site_under<'a, 'b: 'a>(site: &StmtContext<'b>, chain: &'a Chain) -> StmtContext<'a>
    requires links { length chain.now ≤ 60003 }
    requires slots { LinksFit chain.now }
    ensures { position_of result ≡ at_body chain.now (position_of site.now) }
{
    let exprs = Site {
        alloc: site.exprs.alloc,
        chain,
        texts: site.exprs.texts,
        inner: site.exprs.inner,
    };
    StmtContext {
        exprs,
        frames: &[],
        scopes: site.scopes,
        is_script: false,
        room: ROOM,
    }
}

/// The bindings of the scope with this number; none where there is no such scope.
pub fn bindings_of<'a>(site: &StmtContext<'a>, number: usize) -> &'a [Binding]
    ensures { named_bindings site.now.exprs.texts.now result.now ≡ (scope_in site.now number).bindings }
{
    match site.scopes.get(number) {
        Some(scope) => &scope.bindings,
        None => &[],
    }
}
