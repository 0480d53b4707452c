//! Lists of names with their initializers, and heads of loops.
ghost use Rattle.std.specs.Prelude.{map, OnOk};
ghost use Rattle.script_grammar.specs.Interpretation.{Interpretation};
ghost use Rattle.script_grammar.specs.TreeLists.{binds_of, params_of};
ghost use Rattle.script_grammar.specs.TreeOf.{bind_of, each_of, init_of, param_of};
ghost use Rattle.scope_analysis.specs.Functions as defined;
ghost use Rattle.scope_inner.specs.Finding.{FindsBy};

use crate::exprs::{find_expr, find_maybe};
use crate::sites::FunctionSite;
use script_grammar::tree::{Bind, Each, Init, Param};
use std::alloc::AllocError;
use stencil_data::Chain;

/// The functions directly in the initializers of names that are declared.
pub fn find_binds<'a>(
    found: &mut Vec<FunctionSite<'a>>,
    binds: &'a [Bind],
    chain: &Chain,
) -> Result<(), AllocError>
    ensures { OnOk result (FindsBy found.old.items found.new.items chain.now (λ i. defined.inner_binds (binds_of (map (bind_of i) binds.now)))) }
{
    for bind in binds {
        find_maybe(found, &bind.value, chain)?;
    }
    Ok(())
}

/// The functions directly in the initializers of parameters.
pub fn find_params<'a>(
    found: &mut Vec<FunctionSite<'a>>,
    params: &'a [Param],
    chain: &Chain,
) -> Result<(), AllocError>
    ensures { OnOk result (FindsBy found.old.items found.new.items chain.now (λ i. defined.inner_params (params_of (map (param_of i) params.now)))) }
{
    for param in params {
        find_maybe(found, &param.value, chain)?;
    }
    Ok(())
}

/// The functions directly in what stands first in the head of a `for`.
pub fn find_init<'a>(
    found: &mut Vec<FunctionSite<'a>>,
    init: &'a Init,
    chain: &Chain,
) -> Result<(), AllocError>
    ensures { OnOk result (FindsBy found.old.items found.new.items chain.now (λ i. defined.inner_init (init_of i init.now))) }
{
    match init {
        Init::Nothing => Ok(()),
        Init::Value(value) => Ok(find_expr(found, value, chain)?),
        Init::Binds { binds, .. } => Ok(find_binds(found, binds, chain)?),
    }
}

/// The functions directly in what stands before `in` in the head of a `for`.
pub fn find_each<'a>(
    found: &mut Vec<FunctionSite<'a>>,
    each: &'a Each,
    chain: &Chain,
) -> Result<(), AllocError>
    ensures { OnOk result (FindsBy found.old.items found.new.items chain.now (λ i. defined.inner_each (each_of i each.now))) }
{
    match each {
        Each::Target(target) => Ok(find_expr(found, target, chain)?),
        Each::Bind { .. } => Ok(()),
    }
}
