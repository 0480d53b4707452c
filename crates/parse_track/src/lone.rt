//! Functions in which no function begins, and which use no name that is bound outside.

ghost use Rattle.std.specs.Prelude.{◌≡◌, ◌||◌};
ghost use Rattle.parse_track.specs.AtomTables.{entry};
ghost use Rattle.parse_track.specs.Log.{region_of};
ghost use Rattle.parse_track.specs.Rows.{told_at, told_by};
ghost use Rattle.parse_track.specs.Pruned.{is_functional, is_hit, lone, quiet};

use crate::atom_table::AtomTable;
use crate::closed::{Top, kind_at};
use crate::names::items_at;
use crate::region::Region;
use crate::track::{Item, RegionRow};

/// Whether a region is that of a function, or that of a function's name.
fn is_functional(region: Region) -> bool
    ensures { result ≡ is_functional (region_of region) }
{
    matches!(region, Region::Function | Region::Arrow | Region::Lambda(_))
}

/// Whether no function begins in an item.
#[cycle(searching)]
fn is_lone_item(rows: &[RegionRow], room: usize, item: Item) -> bool
    ensures { result ≡ lone (told_by room rows.now item) }
{
    match item {
        Item::Declared(_, _) => true,
        Item::Used(_) => true,
        Item::Jumped(_, _) => true,
        Item::JumpedTo(_, _, _) => true,
        Item::Inner(region) => {
            if is_functional(kind_at(rows, region)) {
                return false;
            }
            is_lone(rows, room, region)
        }
    }
}

/// Whether no function begins in a region.
#[cycle(searching)]
pub fn is_lone(rows: &[RegionRow], room: usize, region: u32) -> bool
    ensures { result ≡ lone (told_at room rows.now region) }
{
    for item in items_at(rows, room, region) {
        if !is_lone_item(rows, room - 1, *item) {
            return false;
        }
    }
    true
}

/// Whether a use of a name finds a binding of a function further out.
fn is_hit(env: &AtomTable<Top>, name: u32, depth: usize) -> bool
    ensures { result ≡ is_hit (entry env.now.entries.items name) depth }
{
    match env.get(name) {
        Some(top) => top.depth < depth,
        None => false,
    }
}

/// Whether no function begins in an item, and no use in it finds a binding of a function further out.
#[cycle(listening)]
fn is_quiet_item(
    env: &AtomTable<Top>,
    rows: &[RegionRow],
    room: usize,
    item: Item,
    depth: usize,
) -> bool
    ensures { result ≡ quiet (entry env.now.entries.items) depth (told_by room rows.now item) }
{
    match item {
        Item::Declared(_, _) => true,
        Item::Jumped(_, _) => true,
        Item::JumpedTo(_, _, _) => true,
        Item::Used(name) => !is_hit(env, name, depth),
        Item::Inner(region) => {
            if is_functional(kind_at(rows, region)) {
                return false;
            }
            is_quiet(env, rows, room, region, depth)
        }
    }
}

/// Whether no function begins in a region, and no use in it finds a binding of a function further out.
#[cycle(listening)]
pub fn is_quiet(
    env: &AtomTable<Top>,
    rows: &[RegionRow],
    room: usize,
    region: u32,
    depth: usize,
) -> bool
    ensures { result ≡ quiet (entry env.now.entries.items) depth (told_at room rows.now region) }
{
    for item in items_at(rows, room, region) {
        if !is_quiet_item(env, rows, room - 1, *item, depth) {
            return false;
        }
    }
    true
}
