//! Links of chains, made of the scopes of a script or a function.
ghost use Rattle.std.specs.Prelude.{◌≡◌, map, IfOk};
ghost use Rattle.stencil_data.specs.Resolve.{is_global as is_global_kind};
ghost use Rattle.stencil_data.specs.StandsFor.{named_bindings, named_scope, text_at};
ghost use Rattle.emit_stmts.specs.Frames as frames;

use std::alloc::{AllocError, Global};
use stencil_data::{Binding, Link, LinkName, ScopeData, ScopeKind, Text};

// The text with this atom.
fn copy_text(alloc: Global, texts: &[Text], atom: u32) -> Result<Text, AllocError>
    ensures { IfOk result (λ text. text ≡ text_at texts.now atom) }
{
    match texts.get(atom as usize) {
        Some(text) => text.copy(alloc),
        None => Ok(Text::empty(alloc)),
    }
}

// These bindings with their texts.
fn link_names(
    alloc: Global,
    texts: &[Text],
    bindings: &[Binding],
) -> Result<Vec<LinkName>, AllocError>
    ensures { IfOk result (λ names. names.items ≡ named_bindings texts.now bindings.now) }
{
    let mut names = Vec::with_capacity(alloc, bindings.len())?;
    for binding in bindings {
        names.push(LinkName {
            text: copy_text(alloc, texts, binding.atom)?,
            kind: binding.kind,
            slot: binding.slot,
        })?;
    }
    Ok(names)
}

fn is_global(kind: ScopeKind) -> bool
    ensures { result ≡ is_global_kind kind }
{
    matches!(kind, ScopeKind::Global)
}

/// The link that the scope with this number makes; one without names where there is no such scope.
pub fn scope_link(
    alloc: Global,
    texts: &[Text],
    scopes: &[ScopeData],
    number: usize,
) -> Result<Link, AllocError>
    ensures { IfOk result (λ link. link ≡ frames.chain_link (frames.scope_at (map (named_scope texts.now) scopes.now) number)) }
{
    match scopes.get(number) {
        Some(scope) => {
            if is_global(scope.kind) {
                return Ok(Link {
                    kind: ScopeKind::Global,
                    env: false,
                    names: Vec::new(alloc),
                });
            }
            let names = link_names(alloc, texts, &scope.bindings)?;
            Ok(Link {
                kind: scope.kind,
                env: scope.env_slots > 0,
                names,
            })
        }
        None => Ok(Link {
            kind: ScopeKind::Lexical,
            env: false,
            names: Vec::new(alloc),
        }),
    }
}
