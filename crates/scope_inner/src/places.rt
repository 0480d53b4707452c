//! Where a walk stands, and scopes that it enters.
ghost use Rattle.std.specs.Prelude.{◌≡◌, ◌+◌, ◌≤◌, length, OnOk, IfOk};
ghost use Rattle.scope_inner.specs.OwnKinds as own;
ghost use Rattle.scope_inner.specs.Spots.{spot_of, inside_spot, scope_in, entered, entered_count};

use crate::sites::FunctionSite;
use emit_stmts::links::scope_link;
use std::alloc::{AllocError, Global};
use stencil_data::{Chain, ScopeData, ScopeKind, Text};

/// The scopes of the function that is walked, the texts of all atoms, and the chain of the scopes around.
#[derive(Clone, Copy)]
pub struct InnerContext<'a> {
    pub alloc: Global,
    pub texts: &'a [Text],
    pub scopes: &'a [ScopeData],
    pub chain: &'a Chain,
}

/// The functions that were found so far, and the number of the next scope.
#[derive(Drop)]
pub struct Walk<'a> {
    pub sites: Vec<FunctionSite<'a>>,
    pub next: usize,
}

/// The place inside a scope that was entered.
pub fn within<'a, 'b: 'a>(place: &InnerContext<'b>, chain: &'a Chain) -> InnerContext<'a>
    ensures { spot_of result ≡ inside_spot chain.now (spot_of place.now) }
{
    InnerContext {
        alloc: place.alloc,
        texts: place.texts,
        scopes: place.scopes,
        chain,
    }
}

// The number after this one, where there is such a scope.
fn number_behind(number: usize, scopes: &[ScopeData]) -> usize
    ensures { number + 1 ≤ length scopes.now → result ≡ number + 1 }
{
    if number < scopes.len() {
        number + 1
    } else {
        number
    }
}

/// Enters the next scope, where there is one. Answers the chain inside.
pub fn enter(next: &mut usize, place: &InnerContext, is_there: bool) -> Result<Chain, AllocError>
    ensures next { OnOk result (next.old + entered_count is_there ≤ length (spot_of place.now).scopes
        → next.new ≡ next.old + entered_count is_there) }
    ensures chain { IfOk result (λ chain. chain ≡ entered (spot_of place.now) next.old is_there) }
{
    if is_there {
        let number = *next;
        *next = number_behind(number, place.scopes);
        let link = scope_link(place.alloc, place.texts, place.scopes, number)?;
        Ok(place.chain.push(place.alloc, link)?)
    } else {
        Ok(place.chain.copy()?)
    }
}

/// Whether the scope with this number is that of a function's name.
pub fn is_of_name(place: &InnerContext, number: usize) -> bool
    ensures { result ≡ own.is_of_name (scope_in (spot_of place.now) number).kind }
{
    match place.scopes.get(number) {
        Some(scope) => matches!(scope.kind, ScopeKind::StrictNamedLambda),
        None => false,
    }
}

/// Whether the scope with this number is that of the var names of a function's body.
pub fn is_of_vars(place: &InnerContext, number: usize) -> bool
    ensures { result ≡ own.is_of_vars (scope_in (spot_of place.now) number).kind }
{
    match place.scopes.get(number) {
        Some(scope) => matches!(scope.kind, ScopeKind::FunctionBodyVar),
        None => false,
    }
}

/// Whether the scope with this number is that of the lexical names at the top of a function's body.
pub fn is_of_top(place: &InnerContext, number: usize) -> bool
    ensures { result ≡ own.is_of_top (scope_in (spot_of place.now) number).kind }
{
    match place.scopes.get(number) {
        Some(scope) => matches!(scope.kind, ScopeKind::FunctionLexical),
        None => false,
    }
}
