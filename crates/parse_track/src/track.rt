//! The log of what is told.

ghost use Rattle.std.specs.Prelude.{◌≡◌, ◌<◌, ◌+◌, ◌^◌, ◌⊎◌, ◌++◌, ◌∷◌, length, map, nat_eq};
ghost use Rattle.std.specs.Prelude.{IsSome, IfSome, IfOk, OnOk, OnErr, Some, None, []};
ghost use Rattle.parse_track.specs.Told.{Declared, Used, Jumped};
ghost use Rattle.parse_track.specs.Log.{name_of, label_of, region_of, Leaf, with_leaf, entered, left, noting, around_at, known_names, told_of};
ghost use Rattle.parse_track.specs.EarlyErrors.{first_error};
ghost use Rattle.parse_track.specs.ClosedNames.{closed};
ghost use Rattle.parse_track.specs.RegionNames.{is_function};
ghost use Rattle.parse_track.specs.Counted.{counted, region_count};
ghost use Rattle.parse_track.specs.Scopes.{bounds_of};
ghost use Rattle.parse_track.specs.Rows.{item_of, listed, row_of, IsTold, MayBeTold};

use crate::closed_names::closed_names;
use crate::errors::{first_error, sooner_early};
use crate::region::{Declare, Early, Jump, Region, Tracked, WellKnownAtoms};
use script_grammar::tree::Ident;
use std::alloc::{AllocError, Global};
use std::marker::Model;

/// What stands in a region: of jumps those without a label and those to one; an Inner is the number of a region inside.
#[derive(Clone, Copy)]
pub enum Item {
    Declared(Declare, Ident),
    Used(u32),
    Jumped(Jump, u32),
    JumpedTo(Jump, u32, Ident),
    Inner(u32),
}

/// What stands in a region, one item after another. In most regions stands nothing or one item, and these take no list.
#[derive(Drop)]
pub enum Items {
    Nothing,
    One(Item),
    Many(Box<Vec<Item>>),
}

impl Items {
    /// The items as a list.
    pub fn listed(&self) -> &[Item]
        ensures { result.now ≡ listed self.now }
    {
        match self {
            Items::Nothing => &[],
            Items::One(item) => std::slice::from_ref(item),
            Items::Many(items) => items,
        }
    }

    /// Makes room for so many items more, where that is more than one item in all. The items stay as they are.
    fn reserve(&mut self, alloc: Global, more: usize) -> Result<(), AllocError>
        ensures { listed self.new ≡ listed self.old }
    {
        match self {
            Items::Nothing => {
                if more > 1 {
                    let list = Vec::with_capacity(alloc, more)?;
                    *self = Items::Many(Box::new(alloc, list)?);
                }
                Ok(())
            }
            Items::One(_) => Ok(()),
            Items::Many(items) => {
                items.reserve(more)?;
                Ok(())
            }
        }
    }

    /// An item more. Where memory runs out all is as it was.
    fn push(&mut self, alloc: Global, item: Item) -> Result<(), AllocError>
        ensures told { OnOk result (listed self.new ≡ listed self.old ++ item ∷ []) }
        ensures same { OnErr result (listed self.new ≡ listed self.old) }
    {
        match self {
            Items::Nothing => {
                *self = Items::One(item);
                Ok(())
            }
            Items::One(first) => {
                *self = pair(alloc, *first, item)?;
                Ok(())
            }
            Items::Many(items) => {
                items.push(item)?;
                Ok(())
            }
        }
    }
}

/// For how many items a list has room that is made for two, so that the next two make it grow no further.
const FIRST_CAPACITY: usize = 4;

/// Two items, with room for more.
fn pair(alloc: Global, first: Item, second: Item) -> Result<Items, AllocError>
    ensures { IfOk result (λ items. listed items ≡ first ∷ second ∷ []) }
{
    let mut items = Vec::with_capacity(alloc, FIRST_CAPACITY)?;
    items.push(first)?;
    items.push(second)?;
    Ok(Items::Many(Box::new(alloc, items)?))
}

/// A region by its number: what it is, where it begins, the region around it, and what stands in it.
#[derive(Drop)]
pub struct RegionRow {
    pub kind: Region,
    pub at: u32,
    pub around: Option<u32>,
    pub items: Items,
}

/// The log of what is told of a script.
#[derive(Drop)]
pub struct Track {
    alloc: Global,
    known: WellKnownAtoms,
    rows: Vec<RegionRow>,
    present: Option<u32>,
    noted: Option<Early>,
}

impl Model for Track {
    ghost use Rattle.std.specs.Prelude.{map};
    ghost use Rattle.parse_track.specs.Log.{Log};
    ghost use Rattle.parse_track.specs.EarlyErrors.{first_error};
    ghost use Rattle.parse_track.specs.ClosedNames.{closed};
    ghost use Rattle.parse_track.specs.Scopes.{bounds_of};
    ghost use Rattle.parse_track.specs.Rows.{row_of, IsInOrder};

    ghost Value = { Log };

    ghost view = { λ t. record { known = t.known; parts = map row_of t.rows.items; present = t.present; noted = t.noted } };

    ghost invariant = { λ t. IsInOrder (map row_of t.rows.items) t.present };
}

/// A jump as an item.
fn jumped(word: Jump, at: u32, label: Option<Ident>) -> Item
    ensures { item_of result ≡ Leaf (Jumped word at (label_of label)) }
{
    match label {
        None => Item::Jumped(word, at),
        Some(label) => Item::JumpedTo(word, at, label),
    }
}

/// The item joins what stands in the present region.
fn add_item(
    alloc: Global,
    rows: &mut Vec<RegionRow>,
    present: Option<u32>,
    item: Item,
) -> Result<(), AllocError>
    requires { IfSome present (λ n. n < length rows.old.items) }
    ensures told { OnOk result (IsTold present item rows.old.items rows.new.items) }
    ensures either { MayBeTold present item rows.old.items rows.new.items }
{
    if let Some(n) = present {
        let row = &mut rows[n as usize];
        row.items.push(alloc, item)?;
    }
    Ok(())
}

/// Makes room for so many items more in the present region. What is told stays as it is.
fn reserve_items(
    alloc: Global,
    rows: &mut Vec<RegionRow>,
    present: Option<u32>,
    more: usize,
) -> Result<(), AllocError>
    requires { IfSome present (λ n. n < length rows.old.items) }
    ensures { map row_of rows.new.items ≡ map row_of rows.old.items }
{
    if let Some(n) = present {
        let row = &mut rows[n as usize];
        row.items.reserve(alloc, more)?;
    }
    Ok(())
}

impl Track {
    /// A track that was told nothing. It takes no memory.
    pub fn new(alloc: Global, known: WellKnownAtoms) -> Track
        ensures { result ≡ record { known = known; parts = []; present = None; noted = None } }
    {
        Track {
            alloc,
            known,
            rows: Vec::new(alloc),
            present: None,
            noted: None,
        }
    }

    /// The atoms of the known names.
    pub fn known(&self) -> &WellKnownAtoms
        ensures { result.now ≡ self.now.known }
    {
        &self.known
    }

    /// A region begins inside the present one, or outermost where none is present. It becomes the present one, and its number
    /// is answered. `at` is the offset of its first token, in bytes; of a Function or Arrow that of its parameters. There
    /// are at most 2^31 regions.
    pub fn enter(&mut self, region: Region, at: u32) -> Result<u32, AllocError>
        requires { length self.old.parts < 2 ^ 31 }
        ensures { IfOk result (λ n. (n ≡ length self.old.parts) × (self.new ≡ entered self.old region at)) }
    {
        let number = next_number(&self.rows);
        let around = self.present;
        self.rows.push(RegionRow {
            kind: region,
            at,
            around,
            items: Items::Nothing,
        })?;
        add_item(self.alloc, &mut self.rows, around, Item::Inner(number))?;
        self.present = Some(number);
        Ok(number)
    }

    /// Makes room for so many items more in the present region: names, jumps and regions inside. What was told stays as it is.
    pub fn reserve(&mut self, items: usize) -> Result<(), AllocError>
        ensures { self.new ≡ self.old }
    {
        reserve_items(self.alloc, &mut self.rows, self.present, items)
    }

    /// The present region ends. The one around it becomes the present one, or none does.
    pub fn leave(&mut self)
        requires { IsSome self.old.present }
        ensures { self.new ≡ left self.old }
    {
        self.present = around(&self.rows, self.present);
    }

    /// The number of the present region.
    pub fn spot(&self) -> u32
        requires { IsSome self.now.present }
        ensures { self.now.present ≡ Some result }
    {
        self.present.unwrap()
    }

    /// An earlier region becomes the present one, for a body that is read later.
    pub fn resume(&mut self, region: u32)
        requires { region < length self.old.parts }
        ensures { self.new ≡ record self.old { present = Some region } }
    {
        self.present = Some(region);
    }

    /// A name is declared in the present region.
    pub fn declare(&mut self, how: Declare, name: Ident) -> Result<(), AllocError>
        requires { IsSome self.old.present }
        ensures { OnOk result (self.new ≡ with_leaf self.old (Declared how (name_of name))) }
    {
        add_item(
            self.alloc,
            &mut self.rows,
            self.present,
            Item::Declared(how, name),
        )
    }

    /// A name is used in the present region.
    pub fn used(&mut self, atom: u32) -> Result<(), AllocError>
        requires { IsSome self.old.present }
        ensures { OnOk result (self.new ≡ with_leaf self.old (Used atom)) }
    {
        add_item(self.alloc, &mut self.rows, self.present, Item::Used(atom))
    }

    /// A jump stands in the present region; `at` is the offset of its word, in bytes.
    pub fn jump(&mut self, word: Jump, at: u32, label: Option<Ident>) -> Result<(), AllocError>
        requires { IsSome self.old.present }
        ensures { OnOk result (self.new ≡ with_leaf self.old (Jumped word at (label_of label))) }
    {
        add_item(
            self.alloc,
            &mut self.rows,
            self.present,
            jumped(word, at, label),
        )
    }

    /// An early error of a rule that looks at no region, at an offset in bytes.
    pub fn note(&mut self, offset: u32, rule: u8)
        ensures { self.new ≡ noting self.old (record { offset = offset; rule = rule }) }
    {
        self.noted = sooner_early(Some(Early { offset, rule }), self.noted);
    }

    /// How many functions were told: regions that are a Function or an Arrow.
    pub fn functions(&self) -> usize
        ensures { result ≡ counted self.now.parts }
    {
        self.rows.iter().filter(|row| is_function(row.kind)).count()
    }

    /// The first early error that follows from all that was told.
    pub fn first_error(&self) -> Result<Option<Early>, AllocError>
        ensures { IfOk result (λ early. early ≡ first_error nat_eq (known_names self.now.known) self.now.noted (told_of self.now.parts)) }
    {
        let early = first_error(self.alloc, &self.known, &self.rows, self.noted)?;
        Ok(early)
    }

    /// What follows from all that was told: the first early error, and the names that inner functions close over, in order of
    /// functions, scopes and bindings. What was told has fewer than 2^31 regions, so that the scopes of a function, of which a
    /// region has at most two, are fewer than 2^32.
    pub fn finish(self) -> Result<Tracked, AllocError>
        requires { region_count (told_of self.parts) < 2 ^ 31 }
        ensures early { IfOk result (λ tracked. tracked.early ≡ first_error nat_eq (known_names self.known) self.noted (told_of self.parts)) }
        ensures closed { IfOk result (λ tracked. bounds_of tracked.closed.items ≡ closed nat_eq (known_names self.known) (told_of self.parts)) }
    {
        let early = self.first_error()?;
        let closed = closed_names(self.alloc, &self.known, &self.rows)?;
        Ok(Tracked { early, closed })
    }
}

/// Whether a region is that of a function.
fn is_function(kind: Region) -> bool
    ensures { result ≡ is_function (region_of kind) }
{
    matches!(kind, Region::Function | Region::Arrow)
}

/// The number of the next region.
fn next_number(rows: &[RegionRow]) -> u32
    requires { length rows.now < 2 ^ 31 }
    ensures { (result ≡ length rows.now) × (result < 2 ^ 31) }
{
    rows.len() as u32
}

/// The region around this one.
fn around(rows: &[RegionRow], region: Option<u32>) -> Option<u32>
    ensures { result ≡ around_at region (map row_of rows.now) }
{
    match rows.get(region? as usize) {
        Some(row) => row.around,
        None => None,
    }
}
