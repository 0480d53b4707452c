//! The chains that a function hands down.

ghost use Rattle.std.specs.Prelude.{◌≡◌, map, IfOk};

use scope_inner::FunctionSite;
use std::alloc::{AllocError, Global};
use stencil_data::Chain;

/// The chains at functions, in their order.
pub(crate) fn chains_of(alloc: Global, inside: Vec<FunctionSite>) -> Result<Vec<Chain>, AllocError>
    ensures { IfOk result (λ chains. chains.items ≡ map (λ s. s.chain) inside.entry.items) }
{
    let mut chains = Vec::with_capacity(alloc, inside.len())?;
    for site in inside {
        chains.push(site.chain)?;
    }
    Ok(chains)
}
