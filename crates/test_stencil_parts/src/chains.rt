//! Chains of few links and of very many.

use std::alloc::{AllocError, Global};
use std::test::Fail;
use stencil_data::{BindKind, Chain, Link, LinkName, ScopeKind, Slot, Text};

// A block with one name in its environment.
fn block(alloc: Global, unit: u16) -> Result<Link, AllocError> {
    let mut names = Vec::new(alloc);
    names.push(LinkName {
        text: Text::of(alloc, &[unit])?,
        kind: BindKind::Let,
        slot: Slot::Env(0),
    })?;
    Ok(Link {
        kind: ScopeKind::Lexical,
        env: true,
        names,
    })
}

// Whether the link with so many links inside of it is of this kind.
fn is_kind(chain: &Chain, inside: usize, kind: ScopeKind) -> bool {
    match chain.link(inside) {
        Some(link) => link.kind == kind,
        None => false,
    }
}

#[test]
fn chains_share_what_is_outside(rt: HostRuntime) -> Result<(), Fail> {
    let global = Chain::global(rt.alloc())?;
    let inner = global.push(rt.alloc(), block(rt.alloc(), 97)?)?;
    let twin = global.copy()?.push(rt.alloc(), block(rt.alloc(), 97)?)?;
    let other = global.push(rt.alloc(), block(rt.alloc(), 98)?)?;
    assert!(rt; inner.same(&twin) && !inner.same(&other) && !inner.same(&global));
    assert!(rt; is_kind(&inner, 0, ScopeKind::Lexical) && is_kind(&inner, 1, ScopeKind::Global));
    assert!(rt; inner.link(2).is_none());
    Ok(())
}

#[test]
fn a_long_chain_is_dropped_in_a_loop(rt: HostRuntime) -> Result<(), Fail> {
    let mut chain = Chain::global(rt.alloc())?;
    for _ in 0..200_000 {
        chain = chain.push(rt.alloc(), block(rt.alloc(), 97)?)?;
    }
    let copy = chain.copy()?;
    assert!(rt; chain.same(&copy));
    drop(chain);
    assert!(rt; copy.link(200_000).is_some() && copy.link(200_001).is_none());
    Ok(())
}
