//! The scopes of a region: each is opened with the bindings of its names.

ghost use Rattle.std.specs.Prelude.{◌≡◌, ◌<◌, ◌++◌, ◌∷◌, [], ◌+◌, ◌^◌, IfOk, OnOk, map, nat_eq};
ghost use Rattle.std.specs.List.{filter_map, list_any};
ghost use Rattle.parse_track.specs.Told.{nothing};
ghost use Rattle.parse_track.specs.RegionNames.{vars, directly};
ghost use Rattle.parse_track.specs.ClosedNames.{distinct, names_of, scopes, scope_if_any, has_body, bound_in};
ghost use Rattle.parse_track.specs.Log.{region_of, known_names, told_items};
ghost use Rattle.parse_track.specs.Rows.{item_of, row_of, items_at, told_at, GainsNames};
ghost use Rattle.parse_track.specs.Asked.{asks, asked_in};
ghost use Rattle.parse_track.specs.declared.names.Asked.TheVariants.{Param};
ghost use Rattle.parse_track.specs.Scopes.{Opens, bounds_of, names_in, scope_of, function_scopes_of, script_scopes_of, body_scopes_of};

use crate::atom_set::AtomSet;
use crate::names::{Asked, add_vars, declared, items_at};
use crate::region::{ClosedAt, Region, WellKnownAtoms};
use crate::track::{Item, RegionRow};
use script_grammar::tree::Ident;
use std::alloc::{AllocError, Global};

/// What opening a scope needs on the way, kept for the next scope: a set of atoms, and the names that the scope binds.
#[derive(Drop)]
pub struct ScopeScratch {
    pub seen: AtomSet,
    pub names: Vec<Ident>,
}

impl ScopeScratch {
    /// No scope was opened yet. It takes no memory.
    pub fn new(alloc: Global) -> ScopeScratch {
        ScopeScratch {
            seen: AtomSet::new(alloc),
            names: Vec::new(alloc),
        }
    }
}

/// The atoms of these names.
pub fn atoms_of(alloc: Global, names: &[Ident]) -> Result<Vec<u32>, AllocError>
    ensures { IfOk result (λ atoms. atoms.items ≡ map (λ name. name.atom) names.now) }
{
    names.iter().map(|name| name.atom).collect(alloc)
}

/// Adds the names that are declared so among these items.
fn add_declared(asked: Asked, items: &[Item], names: &mut Vec<Ident>) -> Result<(), AllocError>
    ensures { OnOk result (names.new.items ≡ names.old.items ++ filter_map (asked_in asked) items.now) }
{
    for item in items {
        if let Some(name) = declared(asked, item) {
            names.push(name)?;
        }
    }
    Ok(())
}

/// Adds the names that are declared so in a region itself.
fn add_direct(
    rows: &[RegionRow],
    room: usize,
    region: u32,
    asked: Asked,
    names: &mut Vec<Ident>,
) -> Result<(), AllocError>
    ensures { OnOk result (GainsNames names.old.items names.new.items (directly (asks asked) (told_at room rows.now region))) }
{
    add_declared(asked, items_at(rows, room, region), names)
}

/// Adds the bindings of a scope: each of these names once, where it stands first. The set is for its use.
fn push_scope(
    seen: &mut AtomSet,
    names: &[Ident],
    func: Option<u32>,
    scope: u32,
    bound: &mut Vec<ClosedAt>,
) -> Result<(), AllocError>
    ensures { OnOk result (bounds_of bound.new.items ≡ bounds_of bound.old.items ++ bound_in func scope (distinct nat_eq (names_in names.now))) }
{
    seen.clear();
    for name in names {
        if seen.insert(name.atom)? {
            bound.push(ClosedAt {
                func,
                scope,
                atom: name.atom,
            })?;
        }
    }
    Ok(())
}

/// Opens the scope of the names kept, which is there without a name too, and answers the number of the next scope.
fn open_whole_scope(
    scratch: &mut ScopeScratch,
    func: Option<u32>,
    scope: u32,
    bound: &mut Vec<ClosedAt>,
) -> Result<u32, AllocError>
    requires { scope + 1 < 2 ^ 32 }
    ensures { IfOk result (λ next. Opens func scope bound.old.items bound.new.items next (distinct nat_eq (names_in scratch.old.names.items) ∷ [])) }
{
    push_scope(&mut scratch.seen, &scratch.names, func, scope, bound)?;
    Ok(scope + 1)
}

/// Opens the scope of the names kept, where there are any, and answers the number of the next scope.
fn open_scope(
    scratch: &mut ScopeScratch,
    func: Option<u32>,
    scope: u32,
    bound: &mut Vec<ClosedAt>,
) -> Result<u32, AllocError>
    requires { scope + 1 < 2 ^ 32 }
    ensures { IfOk result (λ next. Opens func scope bound.old.items bound.new.items next (scope_if_any (distinct nat_eq (names_in scratch.old.names.items)))) }
{
    if scratch.names.is_empty() {
        return Ok(scope);
    }
    open_whole_scope(scratch, func, scope, bound)
}

/// Whether an item is a body of its own.
fn is_body(rows: &[RegionRow], item: Item) -> bool
    ensures { result ≡ has_body (told_items (map row_of rows.now) (λ _. nothing) (item_of item ∷ [])) }
{
    match item {
        Item::Inner(region) => match rows.get(region as usize) {
            Some(row) => matches!(row.kind, Region::VarBody),
            None => false,
        },
        Item::Declared(_, _) => false,
        Item::Used(_) => false,
        Item::Jumped(_, _) => false,
        Item::JumpedTo(_, _, _) => false,
    }
}

/// Whether a body of its own is among these items.
fn any_body(rows: &[RegionRow], items: &[Item]) -> bool
    ensures { result ≡ list_any (λ item. has_body (told_items (map row_of rows.now) (λ _. nothing) (item_of item ∷ []))) items.now }
{
    items.iter().any(|item| is_body(rows, *item))
}

/// Whether a body of its own is directly inside a region.
fn has_body(rows: &[RegionRow], room: usize, region: u32) -> bool
    ensures { result ≡ has_body (told_at room rows.now region) }
{
    any_body(rows, items_at(rows, room, region))
}

/// A name that is implicit in a function. It stands nowhere: its offset is not asked for.
fn implicit_name(atom: u32) -> Ident
    ensures { result ≡ record { atom = atom; at = 0 } }
{
    Ident { atom, at: 0 }
}

/// Opens the one scope of the names that are declared so in a region, where there are any.
fn open_direct_scope(
    scratch: &mut ScopeScratch,
    rows: &[RegionRow],
    room: usize,
    region: u32,
    asked: Asked,
    func: Option<u32>,
    scope: u32,
    bound: &mut Vec<ClosedAt>,
) -> Result<u32, AllocError>
    requires { scope + 1 < 2 ^ 32 }
    ensures { IfOk result (λ next. Opens func scope bound.old.items bound.new.items next (scope_of (directly (asks asked) (told_at room rows.now region)))) }
{
    scratch.names.clear();
    add_direct(rows, room, region, asked, &mut scratch.names)?;
    open_scope(scratch, func, scope, bound)
}

/// Opens the scope of the parameters of a function, with what is implicit.
fn open_param_scope(
    scratch: &mut ScopeScratch,
    implicit: &[Ident],
    rows: &[RegionRow],
    room: usize,
    region: u32,
    func: Option<u32>,
    scope: u32,
    bound: &mut Vec<ClosedAt>,
) -> Result<u32, AllocError>
    requires { scope + 1 < 2 ^ 32 }
    ensures { IfOk result (λ next. Opens func scope bound.old.items bound.new.items next (distinct nat_eq (names_of (directly (asks Param) (told_at room rows.now region)) ++ names_in implicit.now) ∷ [])) }
{
    scratch.names.clear();
    add_direct(rows, room, region, Asked::Param, &mut scratch.names)?;
    scratch.names.extend_from_slice(implicit)?;
    open_whole_scope(scratch, func, scope, bound)
}

/// Opens the scope of the parameters of a function and its var names, with what is implicit.
fn open_param_var_scope(
    scratch: &mut ScopeScratch,
    implicit: &[Ident],
    rows: &[RegionRow],
    room: usize,
    region: u32,
    func: Option<u32>,
    scope: u32,
    bound: &mut Vec<ClosedAt>,
) -> Result<u32, AllocError>
    requires { scope + 1 < 2 ^ 32 }
    ensures { IfOk result (λ next. Opens func scope bound.old.items bound.new.items next (distinct nat_eq (names_of (directly (asks Param) (told_at room rows.now region)) ++ names_of (vars (told_at room rows.now region)) ++ names_in implicit.now) ∷ [])) }
{
    scratch.names.clear();
    add_direct(rows, room, region, Asked::Param, &mut scratch.names)?;
    add_vars(rows, room, region, &mut scratch.names)?;
    scratch.names.extend_from_slice(implicit)?;
    open_whole_scope(scratch, func, scope, bound)
}

/// Opens the scopes of a function: the parameters with the var names and what is implicit, and the lexical names; or, where the
/// body is a region of its own, the parameters alone.
fn open_function_scopes(
    scratch: &mut ScopeScratch,
    implicit: &[Ident],
    rows: &[RegionRow],
    room: usize,
    region: u32,
    func: Option<u32>,
    scope: u32,
    bound: &mut Vec<ClosedAt>,
) -> Result<u32, AllocError>
    requires { scope + 2 < 2 ^ 32 }
    ensures { IfOk result (λ next. Opens func scope bound.old.items bound.new.items next (function_scopes_of (names_in implicit.now) (told_at room rows.now region))) }
{
    if has_body(rows, room, region) {
        return open_param_scope(scratch, implicit, rows, room, region, func, scope, bound);
    }
    let next = open_param_var_scope(scratch, implicit, rows, room, region, func, scope, bound)?;
    open_direct_scope(
        scratch,
        rows,
        room,
        region,
        Asked::Lexical,
        func,
        next,
        bound,
    )
}

/// Opens the scope of a script.
fn open_script_scope(
    scratch: &mut ScopeScratch,
    rows: &[RegionRow],
    room: usize,
    region: u32,
    func: Option<u32>,
    scope: u32,
    bound: &mut Vec<ClosedAt>,
) -> Result<u32, AllocError>
    requires { scope + 1 < 2 ^ 32 }
    ensures { IfOk result (λ next. Opens func scope bound.old.items bound.new.items next (script_scopes_of (told_at room rows.now region))) }
{
    scratch.names.clear();
    add_vars(rows, room, region, &mut scratch.names)?;
    add_direct(rows, room, region, Asked::Lexical, &mut scratch.names)?;
    open_whole_scope(scratch, func, scope, bound)
}

/// Opens the scope of the var names of a region, where there are any.
fn open_var_scope(
    scratch: &mut ScopeScratch,
    rows: &[RegionRow],
    room: usize,
    region: u32,
    func: Option<u32>,
    scope: u32,
    bound: &mut Vec<ClosedAt>,
) -> Result<u32, AllocError>
    requires { scope + 1 < 2 ^ 32 }
    ensures { IfOk result (λ next. Opens func scope bound.old.items bound.new.items next (scope_of (vars (told_at room rows.now region)))) }
{
    scratch.names.clear();
    add_vars(rows, room, region, &mut scratch.names)?;
    open_scope(scratch, func, scope, bound)
}

/// Opens the scopes of a body that is a region of its own: its var names, and its lexical names.
fn open_body_scopes(
    scratch: &mut ScopeScratch,
    rows: &[RegionRow],
    room: usize,
    region: u32,
    func: Option<u32>,
    scope: u32,
    bound: &mut Vec<ClosedAt>,
) -> Result<u32, AllocError>
    requires { scope + 2 < 2 ^ 32 }
    ensures { IfOk result (λ next. Opens func scope bound.old.items bound.new.items next (body_scopes_of (told_at room rows.now region))) }
{
    let next = open_var_scope(scratch, rows, room, region, func, scope, bound)?;
    open_direct_scope(
        scratch,
        rows,
        room,
        region,
        Asked::Lexical,
        func,
        next,
        bound,
    )
}

/// Opens the scope of one name.
fn open_name_scope(
    scratch: &mut ScopeScratch,
    name: Ident,
    func: Option<u32>,
    scope: u32,
    bound: &mut Vec<ClosedAt>,
) -> Result<u32, AllocError>
    requires { scope + 1 < 2 ^ 32 }
    ensures { IfOk result (λ next. Opens func scope bound.old.items bound.new.items next ((name.atom ∷ []) ∷ [])) }
{
    scratch.names.clear();
    scratch.names.push(name)?;
    open_whole_scope(scratch, func, scope, bound)
}

/// Opens the scopes of a region of this kind from the outermost in, the first with the number `scope`: adds the bindings of their
/// names in order, and answers the number of the next scope.
pub fn open_scopes(
    scratch: &mut ScopeScratch,
    known: &WellKnownAtoms,
    rows: &[RegionRow],
    room: usize,
    kind: Region,
    region: u32,
    func: Option<u32>,
    scope: u32,
    bound: &mut Vec<ClosedAt>,
) -> Result<u32, AllocError>
    requires { scope + 2 < 2 ^ 32 }
    ensures { IfOk result (λ next. Opens func scope bound.old.items bound.new.items next (scopes nat_eq (known_names known.now) (region_of kind) (told_at room rows.now region))) }
{
    match kind {
        Region::Script => open_script_scope(scratch, rows, room, region, func, scope, bound),
        Region::Function => {
            let implicit = [implicit_name(known.arguments), implicit_name(known.this)];
            open_function_scopes(scratch, &implicit, rows, room, region, func, scope, bound)
        }
        Region::Arrow => {
            let implicit = [];
            open_function_scopes(scratch, &implicit, rows, room, region, func, scope, bound)
        }
        Region::Lambda(name) => open_name_scope(scratch, name, func, scope, bound),
        Region::Block | Region::Switch | Region::ForHead => {
            open_direct_scope(
                scratch,
                rows,
                room,
                region,
                Asked::Lexical,
                func,
                scope,
                bound,
            )
        }
        Region::Catch => {
            open_direct_scope(
                scratch,
                rows,
                room,
                region,
                Asked::Catch,
                func,
                scope,
                bound,
            )
        }
        Region::VarBody => open_body_scopes(scratch, rows, room, region, func, scope, bound),
        Region::Loop | Region::Label(_) => Ok(scope),
    }
}
