//! The names that a region declares.

ghost use Rattle.std.specs.Prelude.{◌≡◌, ◌<◌, ◌++◌, ◌∷◌, [], true, false, length, IfOk, OnOk, MatchOption, map, filter_map};
ghost use Rattle.parse_track.specs.RegionNames.{stops_vars, vars};
ghost use Rattle.parse_track.specs.Log.{region_of};
ghost use Rattle.parse_track.specs.Rows.{item_of, row_of, items_at, kind_in, told_at, told_by, GainsNames};
ghost use Rattle.std.specs.List.{list_any};
ghost use Rattle.parse_track.specs.Asked.{asks, asked_in, is_declared};

use crate::region::{Declare, Region};
use crate::track::{Item, RegionRow};
use script_grammar::tree::Ident;
use std::alloc::{AllocError, Global};

/// Which declarations are asked for.
#[derive(Clone, Copy)]
pub enum Asked {
    Lexical,
    Var,
    Param,
    Catch,
    All,
}

/// Whether a declaration is one that is asked for.
fn is_asked(asked: Asked, how: Declare) -> bool
    ensures { result ≡ asks asked how }
{
    match asked {
        Asked::Lexical => matches!(how, Declare::Lexical),
        Asked::Var => matches!(how, Declare::Var),
        Asked::Param => matches!(how, Declare::Param),
        Asked::Catch => matches!(how, Declare::Catch),
        Asked::All => true,
    }
}

/// The name that an item declares so.
pub fn declared(asked: Asked, item: &Item) -> Option<Ident>
    ensures { result ≡ asked_in asked item.now }
{
    match item {
        Item::Declared(how, name) => {
            if is_asked(asked, *how) {
                Some(*name)
            } else {
                None
            }
        }
        Item::Used(_) => None,
        Item::Jumped(_, _) => None,
        Item::JumpedTo(_, _, _) => None,
        Item::Inner(_) => None,
    }
}

/// The names that are declared so among these items.
pub fn direct_names(alloc: Global, asked: Asked, items: &[Item]) -> Result<Vec<Ident>, AllocError>
    ensures { IfOk result (λ names. names.items ≡ filter_map (asked_in asked) items.now) }
{
    items
        .iter()
        .filter_map(|item| declared(asked, item))
        .collect(alloc)
}

/// Whether an item declares a name.
fn is_declared(item: &Item) -> bool
    ensures { result ≡ is_declared item.now }
{
    matches!(item, Item::Declared(_, _))
}

/// Whether a name is declared among these items.
pub fn declares_any(items: &[Item]) -> bool
    ensures { result ≡ list_any is_declared items.now }
{
    items.iter().any(|item| is_declared(item))
}

/// What stands in a region, where n regions may stand one in another; nothing where there is no room or no region.
pub fn items_at(rows: &[RegionRow], room: usize, region: u32) -> &[Item]
    ensures items { map item_of result.now ≡ items_at room (map row_of rows.now) region }
    ensures room { 0 < length result.now → 0 < room }
{
    match rows.get(region as usize) {
        Some(row) => { if room == 0 { &[] } else { row.items.listed() } }
        None => &[],
    }
}

/// Whether var names hoist no further than this region.
pub fn stops_vars(region: Region) -> bool
    ensures { result ≡ stops_vars (region_of region) }
{
    match region {
        Region::Script | Region::Function | Region::Arrow | Region::VarBody => true,
        Region::Lambda(_) => false,
        Region::Block => false,
        Region::Switch => false,
        Region::ForHead => false,
        Region::Catch => false,
        Region::Loop => false,
        Region::Label(_) => false,
    }
}

/// The region inside, where var names hoist out of it.
fn open_region(rows: &[RegionRow], region: u32) -> Option<u32>
    ensures { MatchOption result (stops_vars (kind_in rows.now region) ≡ true) (λ n. (n ≡ region) × (stops_vars (kind_in rows.now region) ≡ false)) }
{
    match rows.get(region as usize) {
        Some(row) => {
            if stops_vars(row.kind) {
                None
            } else {
                Some(region)
            }
        }
        None => Some(region),
    }
}

/// The names of the `var` declarations of an item, and of a region inside those that hoist out of it.
#[cycle(hoisting)]
fn add_item_vars(
    rows: &[RegionRow],
    room: usize,
    item: Item,
    names: &mut Vec<Ident>,
) -> Result<(), AllocError>
    ensures { OnOk result (GainsNames names.old.items names.new.items (vars (told_by room rows.now item))) }
{
    match item {
        Item::Declared(Declare::Var, name) => {
            names.push(name)?;
            Ok(())
        }
        Item::Declared(Declare::Lexical, _) => Ok(()),
        Item::Declared(Declare::Param, _) => Ok(()),
        Item::Declared(Declare::Catch, _) => Ok(()),
        Item::Used(_) => Ok(()),
        Item::Jumped(_, _) => Ok(()),
        Item::JumpedTo(_, _, _) => Ok(()),
        Item::Inner(region) => match open_region(rows, region) {
            Some(open) => add_vars(rows, room, open, names),
            None => Ok(()),
        },
    }
}

/// Adds the var names of a region.
#[cycle(hoisting)]
pub fn add_vars(
    rows: &[RegionRow],
    room: usize,
    region: u32,
    names: &mut Vec<Ident>,
) -> Result<(), AllocError>
    ensures { OnOk result (GainsNames names.old.items names.new.items (vars (told_at room rows.now region))) }
{
    let items = items_at(rows, room, region);
    for item in items {
        add_item_vars(rows, room - 1, *item, names)?;
    }
    Ok(())
}
