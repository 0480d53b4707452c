//! The names of a script that inner functions close over, from the walk over its regions.

ghost use Rattle.std.specs.Prelude.{◌≡◌, ◌<◌, ◌≤◌, ◌+◌, ◌*◌, ◌^◌, ◌++◌, ◌∷◌, [], ℕ, cond, false, true, length, replicate, slice_set, IfOk, OnOk, nat_eq};
ghost use Rattle.parse_track.specs.ClosedNames.{closed, kept};
ghost use Rattle.parse_track.specs.Counted.{region_count};
ghost use Rattle.parse_track.specs.Log.{known_names};
ghost use Rattle.parse_track.specs.Pruned.{pruned};
ghost use Rattle.parse_track.specs.Rows.{told_outermost, told_of_rows};
ghost use Rattle.parse_track.specs.Scopes.{bound_of, bounds_of};
ghost use Rattle.parse_track.specs.Walk.{marks};
ghost use Rattle.parse_track.specs.Visited.{IsVisitedOutside};

use crate::closed::{FoundClosed, RegionContext, count, visit_inner};
use crate::region::{ClosedAt, WellKnownAtoms};
use crate::track::RegionRow;
use std::alloc::{AllocError, Global};

/// No place is hit.
fn unmarked(alloc: Global, count: usize) -> Result<Vec<bool>, AllocError>
    ensures { IfOk result (λ some. some.items ≡ replicate count false) }
{
    let marked = vec![in alloc; false; count]?;
    Ok(marked)
}

/// A place is hit, where it is one of those.
fn set_mark(marked: &mut Vec<bool>, place: usize)
    ensures { marked.new.items ≡ slice_set marked.old.items place true }
{
    if place < marked.len() {
        marked[place] = true;
    }
}

/// Of each of n places whether it is hit.
fn mark(alloc: Global, hits: &[usize], count: usize) -> Result<Vec<bool>, AllocError>
    ensures { IfOk result (λ some. some.items ≡ marks hits.now 0 count) }
{
    let mut marked = unmarked(alloc, count)?;
    for hit in hits {
        set_mark(&mut marked, *hit);
    }
    Ok(marked)
}

/// Adds a binding, where it is marked.
fn push_marked(some: &mut Vec<ClosedAt>, is_marked: bool, at: ClosedAt) -> Result<(), AllocError>
    ensures { OnOk result (bounds_of some.new.items ≡ bounds_of some.old.items ++ cond is_marked (bound_of at ∷ []) []) }
{
    if is_marked {
        some.push(at)?;
    }
    Ok(())
}

/// The bindings that are marked.
fn keep(alloc: Global, bound: &[ClosedAt], marked: &[bool]) -> Result<Vec<ClosedAt>, AllocError>
    requires { length marked.now ≡ length bound.now }
    ensures { IfOk result (λ some. bounds_of some.items ≡ kept marked.now (bounds_of bound.now)) }
{
    let mut some = Vec::new(alloc);
    for (place, at) in bound.iter().enumerate() {
        push_marked(&mut some, marked[place], *at)?;
    }
    Ok(some)
}

/// The walk over a region of a script, where it is an outermost one.
fn visit_outermost(
    alloc: Global,
    known: &WellKnownAtoms,
    rows: &[RegionRow],
    region: u32,
    around: Option<u32>,
    scope: u32,
    found: &mut FoundClosed,
) -> Result<u32, AllocError>
    requires room { length rows.now ≤ 2 ^ 31 }
    requires scopes { scope + 2 * region_count (told_outermost rows.now region around) < 2 ^ 32 }
    ensures { IfOk result (λ next. IsVisitedOutside (known_names known.now) scope found.old found.new next
        (pruned (known_names known.now) false (told_outermost rows.now region around))) }
{
    match around {
        Some(_) => Ok(scope),
        None => visit_inner(
            alloc,
            known,
            rows,
            rows.len(),
            region,
            RegionContext::script(),
            scope,
            found,
        ),
    }
}

/// The walk over a script, from its outermost regions.
fn visit_script(
    alloc: Global,
    known: &WellKnownAtoms,
    rows: &[RegionRow],
    found: &mut FoundClosed,
) -> Result<u32, AllocError>
    requires room { length rows.now ≤ 2 ^ 31 }
    requires scopes { region_count (told_of_rows rows.now) < 2 ^ 31 }
    ensures { IfOk result (λ next. IsVisitedOutside (known_names known.now) 0 found.old found.new next
        (pruned (known_names known.now) false (told_of_rows rows.now))) }
{
    let mut scope = 0;
    for (region, row) in rows.iter().enumerate() {
        scope = visit_outermost(alloc, known, rows, region as u32, row.around, scope, found)?;
    }
    Ok(scope)
}

/// The names that inner functions close over, in the order of the source.
pub fn closed_names(
    alloc: Global,
    known: &WellKnownAtoms,
    rows: &[RegionRow],
) -> Result<Vec<ClosedAt>, AllocError>
    requires room { length rows.now ≤ 2 ^ 31 }
    requires scopes { region_count (told_of_rows rows.now) < 2 ^ 31 }
    ensures { IfOk result (λ some. bounds_of some.items ≡ closed nat_eq (known_names known.now) (told_of_rows rows.now)) }
{
    let mut found = FoundClosed::new(alloc);
    let _scopes = visit_script(alloc, known, rows, &mut found)?;
    let marked = mark(alloc, &found.hits, count(&found.bound))?;
    keep(alloc, &found.bound, &marked)
}
