//! The functions directly in scripts and in functions.
ghost use Rattle.std.specs.Prelude.{OnOk, IfOk};
ghost use Rattle.scope_inner.specs.FunctionSites.{AreFunctionSites, AreScriptSites};
ghost use Rattle.scope_inner.specs.Spots.{spot_of};
ghost use Rattle.scope_inner.specs.StmtFinds.{BodyFinds, BracedFinds};

use crate::exprs::find_expr;
use crate::parts::find_params;
use crate::places::{InnerContext, Walk, enter, is_of_name, is_of_top, is_of_vars, within};
use crate::sites::FunctionSite;
use crate::stmts::find_stmts;
use script_grammar::tree::{Func, FuncBody, Stmt};
use std::alloc::{AllocError, Global};
use stencil_data::{Chain, ScopeData, Text};

/// The functions that stand directly in a script with these scopes, in the order of the source, each with the chain of the
/// scopes around it. Atoms are indexes into `texts`.
pub fn script_sites<'a>(
    alloc: Global,
    items: &'a [Stmt],
    scopes: &[ScopeData],
    texts: &[Text],
) -> Result<Vec<FunctionSite<'a>>, AllocError>
    ensures { IfOk result (λ sites. AreScriptSites texts.now scopes.now items.now sites.items) }
{
    let chain = Chain::global(alloc)?;
    let place = InnerContext {
        alloc,
        texts,
        scopes,
        chain: &chain,
    };
    let mut out = Walk {
        sites: Vec::new(alloc),
        next: 1,
    };
    find_stmts(&mut out, &place, items)?;
    Ok(out.sites)
}

// In a body in braces, with the scopes of its var names and of the lexical names at its top.
fn find_braced<'a>(
    out: &mut Walk<'a>,
    place: &InnerContext,
    items: &'a [Stmt],
) -> Result<(), AllocError>
    ensures { OnOk result (BracedFinds (spot_of place.now) out.old out.new items.now) }
{
    let has_vars = is_of_vars(place, out.next);
    let vars = enter(&mut out.next, place, has_vars)?;
    let around = within(place, &vars);
    let has_top = is_of_top(&around, out.next);
    let top = enter(&mut out.next, &around, has_top)?;
    let inside = within(&around, &top);
    find_stmts(out, &inside, items)?;
    Ok(())
}

// In the body of a function, where it was read.
fn find_body<'a>(
    out: &mut Walk<'a>,
    place: &InnerContext,
    body: &'a FuncBody,
) -> Result<(), AllocError>
    ensures { OnOk result (BodyFinds (spot_of place.now) out.old out.new body.now) }
{
    match body {
        FuncBody::Braced(items) => Ok(find_braced(out, place, items)?),
        FuncBody::Short(value) => Ok(find_expr(&mut out.sites, value, place.chain)?),
        FuncBody::Passed => Ok(()),
    }
}

/// The functions that stand directly in a function with these scopes under the chain of the scopes around it, in the order
/// of the source, each with the chain of the scopes around it. Atoms are indexes into `texts`. Of a function whose body was
/// passed over nothing is said.
pub fn function_sites<'a>(
    alloc: Global,
    func: &'a Func,
    scopes: &[ScopeData],
    chain: &Chain,
    texts: &[Text],
) -> Result<Vec<FunctionSite<'a>>, AllocError>
    ensures { IfOk result (λ sites. AreFunctionSites texts.now scopes.now chain.now func.now sites.items) }
{
    let outside = InnerContext {
        alloc,
        texts,
        scopes,
        chain,
    };
    let mut out = Walk {
        sites: Vec::new(alloc),
        next: 0,
    };
    let has_name = is_of_name(&outside, 0);
    let named = enter(&mut out.next, &outside, has_name)?;
    let around = within(&outside, &named);
    let own = enter(&mut out.next, &around, true)?;
    let inside = within(&around, &own);
    find_params(&mut out.sites, &func.params, &own)?;
    find_body(&mut out, &inside, &func.body)?;
    Ok(out.sites)
}
