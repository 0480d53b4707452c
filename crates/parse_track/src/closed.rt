//! The names that inner functions close over, by one walk from the outside in. A function in which no function begins closes over
//! no name of its own: its bindings are given back, and where no use in it finds a binding outside it is passed over.

ghost use Rattle.std.specs.Prelude.{◌≡◌, ◌<◌, ◌+◌, ◌*◌, ◌^◌, ◌++◌, [], ℕ, Option, false, length, slice_get, cond, Some};
ghost use Rattle.std.specs.Prelude.{None, IfOk, OnOk, map};
ghost use Rattle.parse_track.specs.Pruned.{is_plain, pruned, told_pruned};
ghost use Rattle.parse_track.specs.AtomTables.{entry};
ghost use Rattle.parse_track.specs.RegionNames.{is_lambda};
ghost use Rattle.parse_track.specs.ClosedNames.{begins, first_at};
ghost use Rattle.parse_track.specs.Counted.{region_count};
ghost use Rattle.parse_track.specs.Told.{Told};
ghost use Rattle.parse_track.specs.Log.{region_of, kind_of, known_names, told_items};
ghost use Rattle.parse_track.specs.Log.{at_of as offset_of};
ghost use Rattle.parse_track.specs.Rows.{item_of, row_of, told_at, told_by, told_inner};
ghost use Rattle.parse_track.specs.Shadows.{atoms_bound, shadow_of, bind_back};
ghost use Rattle.parse_track.specs.Walk.{bind_all, hit, deeper};
ghost use Rattle.parse_track.specs.Visited.{IsVisited, begun_at};

use crate::atom_table::AtomTable;
use crate::lone::{is_lone, is_quiet};
use crate::names::items_at;
use crate::region::{ClosedAt, Region, WellKnownAtoms};
use crate::scopes::{ScopeScratch, open_scopes};
use crate::track::{Item, RegionRow};
use std::alloc::{AllocError, Global};

/// The innermost binding of a name: its place among all bindings, and how many functions are around its scope.
#[derive(Clone, Copy)]
pub struct Top {
    pub place: usize,
    pub depth: usize,
}

/// What a name was bound to where a scope binds it anew.
#[derive(Clone, Copy)]
pub struct Shadowed {
    pub atom: u32,
    pub outer: Option<Top>,
}

/// Keeps what the names of these bindings are bound to, before they are bound anew.
fn shadow(
    env: &AtomTable<Top>,
    bound: &[ClosedAt],
    shadowed: &mut Vec<Shadowed>,
) -> Result<(), AllocError>
    ensures { OnOk result (shadowed.new.items ≡ shadowed.old.items ++ map (shadow_of (entry env.now.entries.items)) bound.now) }
{
    for at in bound {
        shadowed.push(Shadowed {
            atom: at.atom,
            outer: env.get(at.atom),
        })?;
    }
    Ok(())
}

/// Binds the names of these bindings, of which the first is at this place.
fn bind(
    env: &mut AtomTable<Top>,
    bound: &[ClosedAt],
    place: usize,
    depth: usize,
) -> Result<(), AllocError>
    requires { place + length bound.now < 2 ^ 64 }
    ensures { OnOk result ((y : ℕ) → entry env.new.entries.items y ≡ bind_all depth place (atoms_bound bound.now) (entry env.old.entries.items) y) }
{
    for (index, at) in bound.iter().enumerate() {
        let top = Top {
            place: place + index,
            depth,
        };
        env.set(at.atom, Some(top))?;
    }
    Ok(())
}

/// Binds names to what they were bound to.
fn bind_back(env: &mut AtomTable<Top>, shadowed: &[Shadowed]) -> Result<(), AllocError>
    ensures { OnOk result ((y : ℕ) → entry env.new.entries.items y ≡ bind_back shadowed.now (entry env.old.entries.items) y) }
{
    for name in shadowed {
        env.set(name.atom, name.outer)?;
    }
    Ok(())
}

/// What a walk has found: to what each name is bound at present, what it was bound to around the scopes that are open, the
/// bindings so far, and the places of those that inner functions close over.
#[derive(Drop)]
pub struct FoundClosed {
    pub scratch: ScopeScratch,
    pub env: AtomTable<Top>,
    pub shadowed: Vec<Shadowed>,
    pub bound: Vec<ClosedAt>,
    pub hits: Vec<usize>,
}

impl FoundClosed {
    /// Nothing is found yet.
    pub fn new(alloc: Global) -> FoundClosed
        ensures env { (y : ℕ) → entry result.env.entries.items y ≡ None }
        ensures bound { result.bound.items ≡ [] }
        ensures hits { result.hits.items ≡ [] }
    {
        FoundClosed {
            scratch: ScopeScratch::new(alloc),
            env: AtomTable::new(alloc),
            shadowed: Vec::new(alloc),
            bound: Vec::new(alloc),
            hits: Vec::new(alloc),
        }
    }
}

/// What is around a region: whether it stands directly in that of its function's name, the offset where its function begins,
/// None for the script, and how many functions are around it.
#[derive(Clone, Copy)]
pub struct RegionContext {
    pub named: bool,
    pub func: Option<u32>,
    pub depth: usize,
}

impl RegionContext {
    /// What is around an outermost region: nothing.
    pub fn script() -> RegionContext
        ensures { result ≡ record { named = false; func = None; depth = 0 } }
    {
        RegionContext {
            named: false,
            func: None,
            depth: 0,
        }
    }
}

/// How many bindings there are.
pub fn count(bound: &[ClosedAt]) -> usize
    ensures { result ≡ length bound.now }
{
    bound.len()
}

/// The number of the first scope of a region: 0 where a function begins there.
fn first_scope(begun: bool, scope: u32) -> u32
    ensures { result ≡ cond begun 0 scope }
{
    if begun { 0 } else { scope }
}

/// The number of the next scope after a region, whose own end at `end`.
fn scope_behind(begun: bool, scope: u32, end: u32) -> u32
    ensures { result ≡ cond begun scope end }
{
    if begun { scope } else { end }
}

/// A use of a name hits its innermost binding, where that is of a function further out.
fn visit_use(found: &mut FoundClosed, name: u32, depth: usize) -> Result<(), AllocError>
    ensures hits { OnOk result (found.new.hits.items ≡ found.old.hits.items ++ hit (entry found.old.env.entries.items name) depth) }
    ensures env { found.new.env ≡ found.old.env }
    ensures shadowed { found.new.shadowed ≡ found.old.shadowed }
    ensures bound { found.new.bound ≡ found.old.bound }
{
    if let Some(top) = found.env.get(name) {
        if top.depth < depth {
            found.hits.push(top.place)?;
        }
    }
    Ok(())
}

/// Whether a region is that of a function that begins there.
fn is_plain(named: bool, region: Region) -> bool
    ensures { result ≡ is_plain named (region_of region) }
{
    match region {
        Region::Function | Region::Arrow => !named,
        _ => false,
    }
}

/// Whether a region is that of a function's name.
fn is_lambda(region: Region) -> bool
    ensures { result ≡ is_lambda (region_of region) }
{
    matches!(region, Region::Lambda(_))
}

/// Whether a function begins at a region.
fn begins(named: bool, region: Region) -> bool
    ensures { result ≡ begins named (region_of region) }
{
    match region {
        Region::Lambda(_) => true,
        Region::Function | Region::Arrow => !named,
        _ => false,
    }
}

/// What a region of this number is.
pub fn kind_at(rows: &[RegionRow], region: u32) -> Region
    ensures { region_of result ≡ kind_of (slice_get (map row_of rows.now) region) }
{
    match rows.get(region as usize) {
        Some(row) => row.kind,
        None => Region::Block,
    }
}

/// Where a region of this number begins.
fn offset_of(rows: &[RegionRow], region: u32) -> u32
    ensures { result ≡ offset_of (slice_get (map row_of rows.now) region) }
{
    match rows.get(region as usize) {
        Some(row) => row.at,
        None => 0,
    }
}

/// Where the first region among these items begins, `at` where there is none.
fn first_at(rows: &[RegionRow], items: &[Item], at: u32) -> u32
    ensures { (inside : ℕ → Told ℕ) → result ≡ first_at at (told_items (map row_of rows.now) inside (map item_of items.now)) }
{
    for item in items {
        if let Item::Inner(region) = item {
            return offset_of(rows, *region);
        }
    }
    at
}

/// Where the function begins that begins at this region.
fn function_at(rows: &[RegionRow], room: usize, kind: Region, region: u32) -> u32
    ensures { result ≡ begun_at room rows.now (region_of kind) region }
{
    let at = offset_of(rows, region);
    if is_lambda(kind) {
        first_at(rows, items_at(rows, room, region), at)
    } else {
        at
    }
}

/// What is around the parts of a region.
fn around_inside(
    rows: &[RegionRow],
    room: usize,
    kind: Region,
    region: u32,
    around: RegionContext,
) -> RegionContext
    requires { around.depth + room + 1 < 2 ^ 64 }
    ensures named { result.named ≡ is_lambda (region_of kind) }
    ensures func { result.func ≡ cond (begins around.named (region_of kind)) (Some (begun_at room rows.now (region_of kind) region)) around.func }
    ensures depth { result.depth ≡ deeper (begins around.named (region_of kind)) around.depth }
{
    let named = is_lambda(kind);
    if begins(around.named, kind) {
        let func = function_at(rows, room, kind, region);
        return RegionContext {
            named,
            func: Some(func),
            depth: around.depth + 1,
        };
    }
    RegionContext {
        named,
        func: around.func,
        depth: around.depth,
    }
}

/// Visits an item: the binding that a use hits, or all of a region inside.
#[cycle(visiting)]
fn visit_item(
    alloc: Global,
    known: &WellKnownAtoms,
    rows: &[RegionRow],
    room: usize,
    item: Item,
    around: RegionContext,
    scope: u32,
    found: &mut FoundClosed,
) -> Result<u32, AllocError>
    requires depth { around.depth + room + 1 < 2 ^ 64 }
    requires scopes { scope + 2 * region_count (told_by room rows.now item) < 2 ^ 32 }
    ensures visited { IfOk result (λ next. IsVisited (known_names known.now) around scope found.old found.new next
        (pruned (known_names known.now) around.named (told_by room rows.now item))) }
    ensures shadowed { OnOk result (found.new.shadowed.items ≡ found.old.shadowed.items) }
{
    match item {
        Item::Declared(_, _) => Ok(scope),
        Item::Jumped(_, _) => Ok(scope),
        Item::JumpedTo(_, _, _) => Ok(scope),
        Item::Used(name) => {
            visit_use(found, name, around.depth)?;
            Ok(scope)
        }
        Item::Inner(region) => visit_inner(alloc, known, rows, room, region, around, scope, found),
    }
}

/// Visits a region inside. Of a function in which no function begins the bindings are given back; where no use in it finds a binding
/// of a function further out, it is not visited at all.
#[cycle(visiting)]
pub fn visit_inner(
    alloc: Global,
    known: &WellKnownAtoms,
    rows: &[RegionRow],
    room: usize,
    region: u32,
    around: RegionContext,
    scope: u32,
    found: &mut FoundClosed,
) -> Result<u32, AllocError>
    requires depth { around.depth + room + 1 < 2 ^ 64 }
    requires scopes { scope + 2 * region_count (told_inner room rows.now region) < 2 ^ 32 }
    ensures visited { IfOk result (λ next. IsVisited (known_names known.now) around scope found.old found.new next
        (pruned (known_names known.now) around.named (told_inner room rows.now region))) }
    ensures shadowed { OnOk result (found.new.shadowed.items ≡ found.old.shadowed.items) }
{
    if !is_plain(around.named, kind_at(rows, region)) {
        return visit_region(alloc, known, rows, room, region, around, scope, found);
    }
    if is_quiet(&found.env, rows, room, region, around.depth + 1) {
        return Ok(scope);
    }
    let place = count(&found.bound);
    let next = visit_region(alloc, known, rows, room, region, around, scope, found)?;
    if is_lone(rows, room, region) {
        found.bound.truncate(place);
    }
    Ok(next)
}

/// Visits a region as it is: binds its names, visits what stands in it, and binds its names to what they were bound to.
#[cycle(visiting)]
fn visit_region(
    alloc: Global,
    known: &WellKnownAtoms,
    rows: &[RegionRow],
    room: usize,
    region: u32,
    around: RegionContext,
    scope: u32,
    found: &mut FoundClosed,
) -> Result<u32, AllocError>
    requires depth { around.depth + room + 1 < 2 ^ 64 }
    requires scopes { scope + 2 * region_count (told_inner room rows.now region) < 2 ^ 32 }
    ensures visited { IfOk result (λ next. IsVisited (known_names known.now) around scope found.old found.new next
        (told_pruned (known_names known.now) room rows.now region)) }
    ensures shadowed { OnOk result (found.new.shadowed.items ≡ found.old.shadowed.items) }
{
    let kind = kind_at(rows, region);
    let inside = around_inside(rows, room, kind, region, around);
    let begun = begins(around.named, kind);
    let from = first_scope(begun, scope);
    let place = count(&found.bound);
    let next = open_scopes(
        &mut found.scratch,
        known,
        rows,
        room,
        kind,
        region,
        inside.func,
        from,
        &mut found.bound,
    )?;
    let outside = found.shadowed.len();
    shadow(&found.env, &found.bound[place..], &mut found.shadowed)?;
    bind(&mut found.env, &found.bound[place..], place, inside.depth)?;
    let end = visit(alloc, known, rows, room, region, inside, next, found)?;
    bind_back(&mut found.env, &found.shadowed[outside..])?;
    found.shadowed.truncate(outside);
    let behind = scope_behind(begun, scope, end);
    Ok(behind)
}

/// Visits what stands in a region, and answers the number of the next scope.
#[cycle(visiting)]
fn visit(
    alloc: Global,
    known: &WellKnownAtoms,
    rows: &[RegionRow],
    room: usize,
    region: u32,
    around: RegionContext,
    scope: u32,
    found: &mut FoundClosed,
) -> Result<u32, AllocError>
    requires depth { around.depth + room < 2 ^ 64 }
    requires scopes { scope + 2 * region_count (told_at room rows.now region) < 2 ^ 32 }
    ensures visited { IfOk result (λ next. IsVisited (known_names known.now) around scope found.old found.new next
        (pruned (known_names known.now) around.named (told_at room rows.now region))) }
    ensures shadowed { OnOk result (found.new.shadowed.items ≡ found.old.shadowed.items) }
{
    let mut next = scope;
    for item in items_at(rows, room, region) {
        next = visit_item(alloc, known, rows, room - 1, *item, around, next, found)?;
    }
    Ok(next)
}
