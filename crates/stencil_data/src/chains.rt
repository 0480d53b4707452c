//! Chains: the scopes around a place of the source, as a function that is compiled on its own needs them.
//!
//! A chain finds a name in its innermost link by an index of the link's names, which is made where the
//! link is pushed, so that a use of a name costs no walk along the names of a scope.
ghost use Rattle.std.specs.Prelude.{◌≡◌, ◌↔◌, [], ◌∷◌, false, IfOk, IfSome, IsTrue, MatchOption, ◌<◌, length, drop, slice_get, option_copied};
ghost use Rattle.stencil_data.specs.LinksOutside.{links_outside};
ghost use Rattle.stencil_data.specs.Resolve.{first_named, innermost_names};

use crate::indexed_link::IndexedLink;
use crate::scopes::{BindKind, ScopeKind, Slot};
use crate::texts::Text;
use std::alloc::{AllocError, Global};
use std::marker::Model;
use std::sync::Arc;

/// A binding of a link, with its own text.
#[derive(Debug, Clone, PartialEq, Eq, Drop)]
pub struct LinkName {
    pub text: Text,
    pub kind: BindKind,
    pub slot: Slot,
}

/// One scope of a chain. `env` tells whether it has an environment.
#[derive(Debug, Clone, Drop)]
pub struct Link {
    pub kind: ScopeKind,
    pub env: bool,
    pub names: Vec<LinkName>,
}

impl Model for Link {
    ghost use Rattle.stencil_data.specs.LinkView.{LinkView};

    ghost Value = { LinkView };

    ghost view = { λ link. record { kind = link.kind; env = link.env; names = link.names.items } };
}

/// A list of links, innermost first. Chains share the links that they have in common, with their indexes,
/// so a chain takes memory for its own innermost link alone, and for the index of its names where these
/// are more than a few.
#[derive(Debug)]
pub struct Chain {
    first: Arc<IndexedLink>,
    outer: Option<Arc<Chain>>,
}

impl Model for Chain {
    ghost use Rattle.std.specs.Prelude.{List, length, ◌∷◌};
    ghost use Rattle.std.specs.Arc.{arc_value};
    ghost use Rattle.stencil_data.specs.LinkView.{LinkView};
    ghost use Rattle.stencil_data.specs.Links.{outer_links};

    ghost Value = { List LinkView };

    ghost view = { λ chain. arc_value chain.first ∷ outer_links chain.outer };

    ghost size = { length };

    ghost use Rattle.stencil_data.specs.ChainFalls.{shorter_outside};

    ghost size_decreases = { λ chain held. shorter_outside chain.first chain.outer };
}

impl Drop for Chain {
    fn drop(mut self) {
        loop {
            let Chain { first: _, outer } = self;
            match outer {
                None => return,
                Some(shared) => match Arc::into_inner(shared) {
                    None => return,
                    Some(rest) => self = rest,
                },
            }
        }
    }
}

impl Chain {
    /// The chain of one global link without names.
    pub fn global(alloc: Global) -> Result<Chain, AllocError>
        ensures { IfOk result (λ chain. chain ≡ record { kind = ScopeKind.Global; env = false; names = [] } ∷ []) }
    {
        let link = Link {
            kind: ScopeKind::Global,
            env: false,
            names: Vec::new(alloc),
        };
        let first = Arc::new(alloc, IndexedLink::new(alloc, link)?)?;
        Ok(Chain { first, outer: None })
    }

    /// The chain with this link innermost. The chain itself stays as it is.
    pub fn push(&self, alloc: Global, link: Link) -> Result<Chain, AllocError>
        ensures { IfOk result (λ chain. chain ≡ link ∷ self.now) }
    {
        let first = Arc::new(alloc, IndexedLink::new(alloc, link)?)?;
        let outer = Arc::new(alloc, self.copy()?)?;
        Ok(Chain {
            first,
            outer: Some(outer),
        })
    }

    /// An equal chain, which shares all links with this one and takes no memory. It fails only where a
    /// link has as many owners as can be counted.
    pub fn copy(&self) -> Result<Chain, AllocError>
        ensures { IfOk result (λ chain. chain ≡ self.now) }
    {
        let first = Arc::try_clone(&self.first)?;
        let outer = match &self.outer {
            None => None,
            Some(chain) => Some(Arc::try_clone(chain)?),
        };
        Ok(Chain { first, outer })
    }

    /// The n-th link from the innermost one, which is the 0-th. It takes no memory.
    pub fn link(&self, n: usize) -> Option<&Link>
        ensures { option_copied result ≡ slice_get self.now n }
    {
        let mut chain = self;
        for _ in 0..n {
            match &chain.outer {
                None => return None,
                Some(outer) => chain = outer,
            }
        }
        Some(chain.first.link())
    }

    /// The first binding of this name in the innermost link. It takes no memory.
    pub fn innermost_binding(&self, name: &Text) -> Option<&LinkName>
        ensures { option_copied result ≡ first_named name.now (innermost_names self.now) }
    {
        self.first.first_named(name)
    }

    /// Whether both chains are equal lists. It takes no memory.
    pub fn same(&self, other: &Chain) -> bool
        ensures { IsTrue result ↔ (self.now ≡ other.now) }
    {
        let mut one = self;
        let mut two = other;
        loop {
            if !one.first.link().same(two.first.link()) {
                return false;
            }
            match one.outer() {
                None => return two.outer().is_none(),
                Some(further) => match two.outer() {
                    None => return false,
                    Some(beyond) => {
                        one = further;
                        two = beyond;
                    }
                },
            }
        }
    }

    /// The innermost link, and the chain of the links outside it, if there are any. It takes no memory.
    pub fn split_innermost(&self) -> (&Link, Option<&Chain>)
        ensures all { self.now ≡ result.0.now ∷ links_outside result.1 }
        ensures outside { IfSome result.1 (λ outer. 0 < length outer.now) }
    {
        (self.first.link(), self.outer())
    }

    fn outer(&self) -> Option<&Chain>
        ensures { MatchOption result (length self.now ≡ 1) (λ outer. (drop 1 self.now ≡ outer.now) × (0 < length outer.now)) }
    {
        let outer: &Chain = match &self.outer {
            None => return None,
            Some(outer) => outer,
        };
        let _first = &outer.first;
        Some(outer)
    }
}

impl Link {
    fn same(&self, other: &Link) -> bool
        ensures { IsTrue result ↔ (self.now ≡ other.now) }
    {
        if self.kind != other.kind || self.env != other.env {
            return false;
        }
        same_names(&self.names, &other.names)
    }
}

fn same_names(one: &[LinkName], two: &[LinkName]) -> bool
    ensures { IsTrue result ↔ (one.now ≡ two.now) }
{
    let mut one = one;
    let mut two = two;
    while let Some((first, rest)) = one.split_first() {
        match two.split_first() {
            None => return false,
            Some((second, beyond)) => {
                if !first.same(second) {
                    return false;
                }
                one = rest;
                two = beyond;
            }
        }
    }
    two.is_empty()
}

impl LinkName {
    fn same(&self, other: &LinkName) -> bool
        ensures { IsTrue result ↔ (self.now ≡ other.now) }
    {
        if self.kind != other.kind || !same_slot(self.slot, other.slot) {
            return false;
        }
        self.text == other.text
    }
}

fn same_slot(one: Slot, two: Slot) -> bool
    ensures { IsTrue result ↔ (one ≡ two) }
{
    one == two
}
