//! The atoms of a stencil, in the order in which its image has them.

ghost use Rattle.std.specs.Prelude.{◌≡◌, ◌++◌, flat_map, IfOk, OnOk};
ghost use Rattle.stencil_xdr_read.specs.Atoms as atoms;

use crate::code::append_code;
use std::alloc::{AllocError, Global};
use stencil_data::{
    Binding, ClosedName, Entry, FunctionStencil, LazyRecord, MergedStencil, ScopeData,
};

fn append_name(out: &mut Vec<u64>, name: Option<u32>) -> Result<(), AllocError>
    ensures { OnOk result (out.new.items ≡ out.old.items ++ atoms.name_atoms name) }
{
    match name {
        None => Ok(()),
        Some(atom) => {
            out.push(u64::from(atom))?;
            Ok(())
        }
    }
}

fn append_bindings(out: &mut Vec<u64>, bindings: &[Binding]) -> Result<(), AllocError>
    ensures { OnOk result (out.new.items ≡ out.old.items ++ flat_map atoms.binding_atoms bindings.now) }
{
    for binding in bindings {
        out.push(u64::from(binding.atom))?;
    }
    Ok(())
}

fn append_scopes(out: &mut Vec<u64>, scopes: &[ScopeData]) -> Result<(), AllocError>
    ensures { OnOk result (out.new.items ≡ out.old.items ++ flat_map atoms.scope_atoms scopes.now) }
{
    for scope in scopes {
        append_bindings(out, &scope.bindings)?;
    }
    Ok(())
}

fn append_part(out: &mut Vec<u64>, part: &FunctionStencil) -> Result<(), AllocError>
    ensures { OnOk result (out.new.items ≡ out.old.items ++ atoms.function_atoms part.now) }
{
    append_name(out, part.name)?;
    append_scopes(out, &part.scopes)?;
    append_code(out, &part.code)?;
    Ok(())
}

fn append_closed(out: &mut Vec<u64>, names: &[ClosedName]) -> Result<(), AllocError>
    ensures { OnOk result (out.new.items ≡ out.old.items ++ flat_map atoms.closed_atoms names.now) }
{
    for name in names {
        out.push(u64::from(name.atom))?;
    }
    Ok(())
}

fn append_record(out: &mut Vec<u64>, lazy: &LazyRecord) -> Result<(), AllocError>
    ensures { OnOk result (out.new.items ≡ out.old.items ++ atoms.record_atoms lazy.now) }
{
    append_name(out, lazy.name)?;
    append_closed(out, &lazy.closed)?;
    Ok(())
}

fn append_records(out: &mut Vec<u64>, records: &[LazyRecord]) -> Result<(), AllocError>
    ensures { OnOk result (out.new.items ≡ out.old.items ++ flat_map atoms.record_atoms records.now) }
{
    for lazy in records {
        append_record(out, lazy)?;
    }
    Ok(())
}

fn append_entry(out: &mut Vec<u64>, entry: &Entry) -> Result<(), AllocError>
    ensures { OnOk result (out.new.items ≡ out.old.items ++ atoms.entry_atoms entry.now) }
{
    match entry {
        Entry::Lazy => Ok(()),
        Entry::Compiled(part) => append_part(out, part),
    }
}

fn append_entries(out: &mut Vec<u64>, entries: &[Entry]) -> Result<(), AllocError>
    ensures { OnOk result (out.new.items ≡ out.old.items ++ flat_map atoms.entry_atoms entries.now) }
{
    for entry in entries {
        append_entry(out, entry)?;
    }
    Ok(())
}

/// The atoms of a stencil, in the order in which its image has them.
pub(crate) fn atoms_of(alloc: Global, stencil: &MergedStencil) -> Result<Vec<u64>, AllocError>
    ensures { IfOk result (λ list. list.items ≡ atoms.stencil_atoms stencil.now) }
{
    let mut out = Vec::new(alloc);
    append_part(&mut out, &stencil.top)?;
    append_records(&mut out, &stencil.records)?;
    append_entries(&mut out, &stencil.entries)?;
    Ok(out)
}
