//! The first var name that clashes with a lexical name of a region around it, by one walk from the outside in.

ghost use Rattle.std.specs.Prelude.{◌≡◌, ◌<◌, ◌≤◌, ◌+◌, ◌-◌, ◌^◌, ◌∷◌, [], Bool, true, false, None, Some, length, slice_get, IfOk, OnOk, map, nat_eq};
ghost use Rattle.parse_track.specs.RegionNames.{is_head, is_var, stops_vars, declared_by};
ghost use Rattle.parse_track.specs.EarlyErrors.{smaller};
ghost use Rattle.parse_track.specs.Log.{name_of, region_of};
ghost use Rattle.parse_track.specs.Rows.{told_at, told_by, told_outermost, told_of_rows};
ghost use Rattle.parse_track.specs.Told.{Declared};
ghost use Rattle.parse_track.specs.AtomTables.{entry, Says};
ghost use Rattle.parse_track.specs.Walk.{deeper};
ghost use Rattle.parse_track.specs.Clashes.{no_firsts, clash_at, clashes};
ghost use Rattle.parse_track.specs.LexicalNames.{offset_for, no_offsets, lessened, first_in, keep, keep_all};
ghost use Rattle.parse_track.specs.LexicalNames.{AreClashesOf, AreOutermostClashes, TakesClashes, TakesInside};

use crate::atom_table::{AtomTable, look_up, put_back};
use crate::closed::kind_at;
use crate::names::{Asked, items_at, stops_vars};
use crate::offsets::lesser;
use crate::region::{Declare, Region};
use crate::rules::names_in;
use crate::scopes::atoms_of;
use crate::track::{Item, RegionRow};
use script_grammar::tree::Ident;
use std::alloc::{AllocError, Global};

/// An offset for the names that heads of `for` statements declare, and one for other lexical names.
#[derive(Clone, Copy)]
pub struct LexicalOffsets {
    pub head: Option<u32>,
    pub other: Option<u32>,
}

/// A name that regions around declare lexically: how many functions are around them, and where it stands first in them.
#[derive(Clone, Copy)]
pub struct LexicalName {
    pub depth: u32,
    pub first: LexicalOffsets,
}

impl LexicalOffsets {
    /// There is no offset.
    fn none() -> LexicalOffsets
        ensures { result ≡ no_offsets }
    {
        LexicalOffsets {
            head: None,
            other: None,
        }
    }

    /// Of each the smaller of two offsets.
    fn lessen(&mut self, other: LexicalOffsets)
        ensures { (heads : Bool) → offset_for heads self.new ≡ smaller (offset_for heads self.old) (offset_for heads other) }
    {
        self.head = lesser(self.head, other.head);
        self.other = lesser(self.other, other.other);
    }

    /// With an offset more of a name that a head declares, or another region.
    fn with(self, is_head: bool, at: u32) -> LexicalOffsets
        ensures { result ≡ lessened is_head at self }
    {
        if is_head {
            LexicalOffsets {
                head: lesser(Some(at), self.head),
                other: self.other,
            }
        } else {
            LexicalOffsets {
                head: self.head,
                other: lesser(Some(at), self.other),
            }
        }
    }

    /// Where a var name at this offset clashes with names that stand first at these.
    fn clashes_at(self, at: u32) -> LexicalOffsets
        ensures { (heads : Bool) → offset_for heads result ≡ clash_at heads (offset_for heads self) at }
    {
        LexicalOffsets {
            head: with_head(self.head, at),
            other: with_other(self.other, at),
        }
    }
}

/// Where a var name clashes with a name of a head: at the var name.
fn with_head(first: Option<u32>, at: u32) -> Option<u32>
    ensures { result ≡ clash_at true first at }
{
    match first {
        Some(_) => Some(at),
        None => None,
    }
}

/// Where a var name clashes with another lexical name: at the later of the two.
fn with_other(first: Option<u32>, at: u32) -> Option<u32>
    ensures { result ≡ clash_at false first at }
{
    match first {
        Some(first) => Some(at.max(first)),
        None => None,
    }
}

/// Whether a region is the head of a `for` statement.
fn is_head(kind: Region) -> bool
    ensures { result ≡ is_head (region_of kind) }
{
    matches!(kind, Region::ForHead)
}

/// How many functions are around what stands in a region.
fn depth_inside(depth: u32, kind: Region) -> u32
    requires { depth + 1 < 2 ^ 32 }
    ensures { result ≡ deeper (stops_vars (region_of kind)) depth }
{
    if stops_vars(kind) { depth + 1 } else { depth }
}

/// Where a name stands first in the regions around that are of the present function.
fn first_of(names: &AtomTable<LexicalName>, depth: u32, atom: u32) -> LexicalOffsets
    ensures { result ≡ first_in depth (entry names.now.entries.items atom) }
{
    match names.get(atom) {
        Some(name) => {
            if name.depth == depth {
                name.first
            } else {
                LexicalOffsets::none()
            }
        }
        None => LexicalOffsets::none(),
    }
}

/// A name that a region declares lexically.
fn open_name(
    names: &mut AtomTable<LexicalName>,
    depth: u32,
    is_head: bool,
    name: Ident,
) -> Result<(), AllocError>
    ensures { OnOk result (Says names.new.entries.items (keep depth is_head (entry names.old.entries.items) (name_of name))) }
{
    let first = first_of(names, depth, name.atom).with(is_head, name.at);
    names.set(name.atom, Some(LexicalName { depth, first }))?;
    Ok(())
}

/// The names that a region declares lexically.
fn open_names(
    names: &mut AtomTable<LexicalName>,
    depth: u32,
    is_head: bool,
    opened: &[Ident],
) -> Result<(), AllocError>
    ensures { OnOk result (Says names.new.entries.items (keep_all depth is_head (map name_of opened.now) (entry names.old.entries.items))) }
{
    for name in opened {
        open_name(names, depth, is_head, *name)?;
    }
    Ok(())
}

/// Takes the clashes of a declaration.
fn clash_of_declared(
    names: &AtomTable<LexicalName>,
    depth: u32,
    how: Declare,
    name: Ident,
    found: &mut LexicalOffsets,
)
    ensures { AreClashesOf depth (entry names.now.entries.items) found.old found.new (declared_by is_var (Declared how (name_of name))) }
{
    match how {
        Declare::Var => found.lessen(first_of(names, depth, name.atom).clashes_at(name.at)),
        Declare::Lexical => (),
        Declare::Param => (),
        Declare::Catch => (),
    }
}

/// Takes the clashes of what an item tells.
#[cycle(clashing)]
fn clash_in_item(
    alloc: Global,
    rows: &[RegionRow],
    room: usize,
    item: Item,
    depth: u32,
    names: &mut AtomTable<LexicalName>,
    found: &mut LexicalOffsets,
) -> Result<(), AllocError>
    requires { depth + room + 1 < 2 ^ 32 }
    ensures same { OnOk result (Says names.new.entries.items (entry names.old.entries.items)) }
    ensures found { OnOk result (TakesClashes depth names.old.entries.items found.old found.new (told_by room rows.now item)) }
{
    match item {
        Item::Declared(how, name) => {
            clash_of_declared(names, depth, how, name, found);
            Ok(())
        }
        Item::Used(_) => Ok(()),
        Item::Jumped(_, _) => Ok(()),
        Item::JumpedTo(_, _, _) => Ok(()),
        Item::Inner(region) => {
            let kind = kind_at(rows, region);
            let inside = depth_inside(depth, kind);
            clash_inside(alloc, rows, room, kind, region, inside, names, found)?;
            Ok(())
        }
    }
}

/// Takes the clashes inside a region of this kind, in which its lexical names are known; then of these is known what was before.
#[cycle(clashing)]
fn clash_inside(
    alloc: Global,
    rows: &[RegionRow],
    room: usize,
    kind: Region,
    region: u32,
    depth: u32,
    names: &mut AtomTable<LexicalName>,
    found: &mut LexicalOffsets,
) -> Result<(), AllocError>
    requires { depth + room < 2 ^ 32 }
    ensures same { OnOk result (Says names.new.entries.items (entry names.old.entries.items)) }
    ensures found { OnOk result (TakesInside depth names.old.entries.items found.old found.new (region_of kind) (told_at room rows.now region)) }
{
    let opened = names_in(alloc, rows, room, region, Asked::Lexical)?;
    let atoms = atoms_of(alloc, &opened)?;
    let saved = look_up(alloc, names, &atoms)?;
    open_names(names, depth, is_head(kind), &opened)?;
    clash_in(alloc, rows, room, region, depth, names, found)?;
    put_back(names, &atoms, &saved)?;
    Ok(())
}

/// Takes the clashes of what stands in a region.
#[cycle(clashing)]
fn clash_in(
    alloc: Global,
    rows: &[RegionRow],
    room: usize,
    region: u32,
    depth: u32,
    names: &mut AtomTable<LexicalName>,
    found: &mut LexicalOffsets,
) -> Result<(), AllocError>
    requires { depth + room < 2 ^ 32 }
    ensures same { OnOk result (Says names.new.entries.items (entry names.old.entries.items)) }
    ensures found { OnOk result (TakesClashes depth names.old.entries.items found.old found.new (told_at room rows.now region)) }
{
    let items = items_at(rows, room, region);
    for item in items {
        clash_in_item(alloc, rows, room - 1, *item, depth, names, found)?;
    }
    Ok(())
}

/// Takes the clashes of an outermost region, around which no name is declared.
fn clash_in_outermost(
    alloc: Global,
    rows: &[RegionRow],
    region: u32,
    around: Option<u32>,
    found: &mut LexicalOffsets,
) -> Result<(), AllocError>
    requires { length rows.now ≤ 2 ^ 32 - 2 }
    ensures { OnOk result (AreOutermostClashes found.old found.new (told_outermost rows.now region around)) }
{
    match around {
        Some(_) => Ok(()),
        None => {
            let mut names = AtomTable::new(alloc);
            clash_in_item(
                alloc,
                rows,
                rows.len(),
                Item::Inner(region),
                0,
                &mut names,
                found,
            )?;
            Ok(())
        }
    }
}

/// The first clash of a var name with a name that the head of a `for` statement declares, and the first with another lexical
/// name.
pub fn first_clashes(alloc: Global, rows: &[RegionRow]) -> Result<LexicalOffsets, AllocError>
    requires { length rows.now ≤ 2 ^ 32 - 2 }
    ensures { IfOk result (λ found. (heads : Bool) → offset_for heads found ≡ clashes heads no_firsts (told_of_rows rows.now)) }
{
    let mut found = LexicalOffsets::none();
    for (region, row) in rows.iter().enumerate() {
        clash_in_outermost(alloc, rows, region as u32, row.around, &mut found)?;
    }
    Ok(found)
}
