//! Copies of parts by other atoms.

ghost use Rattle.std.specs.Prelude.{◌≡◌, map, option_map, IfOk};
ghost use Rattle.stencil_merge.specs.Atoms as by_atoms;
ghost use Rattle.stencil_merge.specs.Parts.{IsFunctionBy};

use crate::atoms::atom_at;
use crate::code::code_by;
use std::alloc::{AllocError, Global};
use stencil_data::{Binding, ClosedName, FunctionStencil, LazyRecord, ScopeData};

fn name_by(atoms: &[u32], name: Option<u32>) -> Option<u32>
    ensures { result ≡ option_map (by_atoms.atom_by atoms.now) name }
{
    match name {
        Some(atom) => Some(atom_at(atoms, atom as usize)),
        None => None,
    }
}

fn binding_by(atoms: &[u32], binding: &Binding) -> Binding
    ensures { result ≡ by_atoms.binding_by atoms.now binding.now }
{
    Binding {
        atom: atom_at(atoms, binding.atom as usize),
        kind: binding.kind,
        slot: binding.slot,
    }
}

fn bindings_by(
    alloc: Global,
    atoms: &[u32],
    bindings: &[Binding],
) -> Result<Vec<Binding>, AllocError>
    ensures { IfOk result (λ made. made.items ≡ map (by_atoms.binding_by atoms.now) bindings.now) }
{
    let mut made = Vec::with_capacity(alloc, bindings.len())?;
    for binding in bindings {
        made.push(binding_by(atoms, binding))?;
    }
    Ok(made)
}

fn scope_by(alloc: Global, atoms: &[u32], scope: &ScopeData) -> Result<ScopeData, AllocError>
    ensures { IfOk result (λ made. made ≡ by_atoms.scope_by atoms.now scope.now) }
{
    let bindings = bindings_by(alloc, atoms, &scope.bindings)?;
    Ok(ScopeData {
        kind: scope.kind,
        parent: scope.parent,
        bindings,
        env_slots: scope.env_slots,
    })
}

fn scopes_by(
    alloc: Global,
    atoms: &[u32],
    scopes: &[ScopeData],
) -> Result<Vec<ScopeData>, AllocError>
    ensures { IfOk result (λ made. made.items ≡ map (by_atoms.scope_by atoms.now) scopes.now) }
{
    let mut made = Vec::with_capacity(alloc, scopes.len())?;
    for scope in scopes {
        let copy = scope_by(alloc, atoms, scope)?;
        made.push(copy)?;
    }
    Ok(made)
}

/// A copy of a function by these atoms, in whose code functions have these numbers.
pub(crate) fn function_by(
    alloc: Global,
    atoms: &[u32],
    numbers: &[u32],
    stencil: &FunctionStencil,
) -> Result<FunctionStencil, AllocError>
    ensures { IfOk result (λ made. IsFunctionBy atoms.now numbers.now stencil.now made) }
{
    let scopes = scopes_by(alloc, atoms, &stencil.scopes)?;
    let code = code_by(alloc, atoms, numbers, &stencil.code)?;
    let notes = Vec::from_slice(alloc, &stencil.notes)?;
    let inner = Vec::from_slice(alloc, &stencil.inner)?;
    Ok(FunctionStencil {
        extent: stencil.extent,
        kind: stencil.kind,
        name: name_by(atoms, stencil.name),
        params: stencil.params,
        scopes,
        code,
        notes,
        inner,
    })
}

fn closed_by(atoms: &[u32], name: &ClosedName) -> ClosedName
    ensures { result ≡ by_atoms.closed_by atoms.now name.now }
{
    ClosedName {
        scope: name.scope,
        atom: atom_at(atoms, name.atom as usize),
    }
}

fn all_closed_by(
    alloc: Global,
    atoms: &[u32],
    names: &[ClosedName],
) -> Result<Vec<ClosedName>, AllocError>
    ensures { IfOk result (λ made. made.items ≡ map (by_atoms.closed_by atoms.now) names.now) }
{
    let mut made = Vec::with_capacity(alloc, names.len())?;
    for name in names {
        made.push(closed_by(atoms, name))?;
    }
    Ok(made)
}

fn record_by(alloc: Global, atoms: &[u32], lazy: &LazyRecord) -> Result<LazyRecord, AllocError>
    ensures { IfOk result (λ made. made ≡ by_atoms.record_by atoms.now lazy.now) }
{
    let inner = Vec::from_slice(alloc, &lazy.inner)?;
    let closed = all_closed_by(alloc, atoms, &lazy.closed)?;
    Ok(LazyRecord {
        extent: lazy.extent,
        kind: lazy.kind,
        name: name_by(atoms, lazy.name),
        inner,
        closed,
    })
}

/// Copies of records by these atoms.
pub(crate) fn records_by(
    alloc: Global,
    atoms: &[u32],
    records: &[LazyRecord],
) -> Result<Vec<LazyRecord>, AllocError>
    ensures { IfOk result (λ made. made.items ≡ map (by_atoms.record_by atoms.now) records.now) }
{
    let mut made = Vec::with_capacity(alloc, records.len())?;
    for lazy in records {
        let copy = record_by(alloc, atoms, lazy)?;
        made.push(copy)?;
    }
    Ok(made)
}
