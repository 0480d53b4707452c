//! Whether the numbers of a stencil are in range, but for its atoms.

ghost use Rattle.std.specs.Prelude.{◌≡◌, ℕ, ◌↔◌, ◌<◌, ◌≤◌, length, map, slice_index, IsTrue};
ghost use Rattle.bytecode_buf.specs.InRange.{extent_of};
ghost use Rattle.stencil_xdr_read.specs.Within as within;
ghost use Rattle.stencil_xdr_read.specs.Within.{EachFrom};

use crate::code::is_code_within;
use stencil_data::{
    Entry, Extent, FuncKind, FunctionStencil, LazyRecord, MergedStencil, ScopeData,
};

/// Whether a number is that of one of n functions.
fn is_number(functions: usize, number: u32) -> bool
    ensures { IsTrue result ↔ within.IsNumber functions number }
{
    1 <= number && number as usize <= functions
}

fn are_numbers(functions: usize, numbers: &[u32]) -> bool
    ensures { IsTrue result ↔ within.AreNumbers functions numbers.now }
{
    for (_at, number) in numbers.iter().enumerate() {
        let fits = is_number(functions, *number);
        if !fits {
            return false;
        }
    }
    true
}

fn have_numbers(records: &[LazyRecord]) -> bool
    ensures { IsTrue result ↔ within.HaveNumbers (length records.now) records.now }
{
    for (_at, lazy) in records.iter().enumerate() {
        let fits = are_numbers(records.len(), &lazy.inner);
        if !fits {
            return false;
        }
    }
    true
}

/// Whether a scope's parent is below its number.
fn is_parent_below(number: usize, scope: &ScopeData) -> bool
    ensures { IsTrue result ↔ within.ParentBelow number scope.now }
{
    match scope.parent {
        None => true,
        Some(parent) => (parent as usize) < number,
    }
}

fn are_parents_below(scopes: &[ScopeData]) -> bool
    ensures { IsTrue result ↔ within.AreParentsBelow scopes.now }
{
    for (number, scope) in scopes.iter().enumerate() {
        let fits = is_parent_below(number, scope);
        if !fits {
            return false;
        }
    }
    true
}

fn is_part_within(functions: usize, part: &FunctionStencil) -> bool
    ensures { IsTrue result ↔ within.PartWithin functions part.now }
{
    are_parents_below(&part.scopes) && is_code_within(functions, &part.code)
}

/// The extent of the function with this number.
fn extent_at(records: &[LazyRecord], number: u32) -> Extent
    ensures { result ≡ extent_of records.now number }
{
    match records.get((number as usize).saturating_sub(1)) {
        None => Extent { start: 0, end: 0 },
        Some(lazy) => lazy.extent,
    }
}

fn is_extent_of(records: &[LazyRecord], number: u32, extent: Extent) -> bool
    ensures { IsTrue result ↔ (extent ≡ extent_of records.now number) }
{
    extent == extent_at(records, number)
}

fn are_extents_of(records: &[LazyRecord], numbers: &[u32], extents: &[Extent]) -> bool
    requires { length numbers.now ≡ length extents.now }
    ensures { IsTrue result ↔ within.AreExtentsOf records.now numbers.now extents.now }
{
    for (at, extent) in extents.iter().enumerate() {
        let fits = is_extent_of(records, numbers[at], *extent);
        if !fits {
            return false;
        }
    }
    true
}

fn are_inner_extents(records: &[LazyRecord], numbers: &[u32], extents: &[Extent]) -> bool
    ensures { IsTrue result ↔ (extents.now ≡ map (extent_of records.now) numbers.now) }
{
    if numbers.len() == extents.len() {
        are_extents_of(records, numbers, extents)
    } else {
        false
    }
}

fn has_head_of(lazy: &LazyRecord, part: &FunctionStencil) -> bool
    ensures { IsTrue result ↔ within.HasHeadOf lazy.now part.now }
{
    part.extent == lazy.extent && part.kind == lazy.kind && part.name == lazy.name
}

fn is_part_of(records: &[LazyRecord], lazy: &LazyRecord, part: &FunctionStencil) -> bool
    ensures { IsTrue result ↔ within.IsPartOf records.now lazy.now part.now }
{
    has_head_of(lazy, part)
        && are_inner_extents(records, &lazy.inner, &part.inner)
        && is_part_within(records.len(), part)
}

fn is_entry_of(records: &[LazyRecord], lazy: &LazyRecord, entry: &Entry) -> bool
    ensures { IsTrue result ↔ within.IsEntryOf records.now lazy.now entry.now }
{
    match entry {
        Entry::Lazy => true,
        Entry::Compiled(part) => is_part_of(records, lazy, part),
    }
}

fn is_entry_at(records: &[LazyRecord], at: usize, entry: &Entry) -> bool
    ensures { IsTrue result ↔ within.IsEntryAt records.now at entry.now }
{
    match records.get(at) {
        None => false,
        Some(lazy) => is_entry_of(records, lazy, entry),
    }
}

fn are_entries(records: &[LazyRecord], entries: &[Entry]) -> bool
    ensures { IsTrue result ↔ within.AreEntries records.now entries.now }
{
    for (at, entry) in entries.iter().enumerate() {
        let fits = is_entry_at(records, at, entry);
        if !fits {
            return false;
        }
    }
    true
}

fn has_top_head(top: &FunctionStencil) -> bool
    ensures { IsTrue result ↔ within.HasTopHead top.now }
{
    top.kind == FuncKind::Declared && top.name.is_none() && top.params == 0 && top.extent.start == 0
}

fn is_top_within(functions: usize, top: &FunctionStencil) -> bool
    ensures { IsTrue result ↔ within.TopWithin functions top.now }
{
    has_top_head(top) && is_part_within(functions, top)
}

/// Whether the numbers of a stencil but for its atoms are in range.
pub(crate) fn is_within(stencil: &MergedStencil) -> bool
    ensures { IsTrue result ↔ within.StencilWithin stencil.now }
{
    have_numbers(&stencil.records)
        && is_top_within(stencil.records.len(), &stencil.top)
        && are_entries(&stencil.records, &stencil.entries)
}
