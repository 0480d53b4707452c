//! The early errors that look at one region: the smallest offset of each over all regions, by one walk.

ghost use Rattle.std.specs.Prelude.{◌≡◌, ◌<◌, ◌≤◌, ◌-◌, ◌^◌, ◌++◌, ◌∷◌, [], ℕ, Bool, true, None, length, slice_get, IfOk, OnOk, map};
ghost use Rattle.std.specs.Prelude.{nat_eq, filter_map};
ghost use Rattle.std.specs.List.{list_any};
ghost use Rattle.parse_track.specs.Told.{Told};
ghost use Rattle.parse_track.specs.RegionNames.{is_lexical, is_param, directly, lexical_below};
ghost use Rattle.parse_track.specs.EarlyErrors.{smaller, smallest, repeated, lambda_name, reserved};
ghost use Rattle.parse_track.specs.Log.{name_of, region_of, kind_of, known_names, Inner};
ghost use Rattle.parse_track.specs.Rows.{items_at, told_at, told_by, told_outermost, told_of_rows, GainsNames};
ghost use Rattle.parse_track.specs.Asked.{asks, asked_in, is_declared};
ghost use Rattle.parse_track.specs.declared.names.Asked.TheVariants as asked;
ghost use Rattle.parse_track.specs.Rules.{RegionRule, BindsReserved, offset_of, is_inner, first_at, equal_catch_param, equal_param};
ghost use Rattle.parse_track.specs.Rules.{AreLessened, AreFirstAt, AreFirstOf, DeclaresNothing};

use crate::atom_set::AtomSet;
use crate::closed::kind_at;
use crate::names::{Asked, declared, declares_any, direct_names, items_at};
use crate::offsets::{first_also, first_repeated, first_reserved, lesser};
use crate::region::{Region, WellKnownAtoms};
use crate::track::{Item, RegionRow};
use script_grammar::tree::Ident;
use std::alloc::{AllocError, Global};

/// The smallest offset of each early error that looks at one region alone, where there is one.
#[derive(Clone, Copy)]
pub struct RuleOffsets {
    pub twice_lexical: Option<u32>,
    pub catch_and_lexical: Option<u32>,
    pub param_and_lexical: Option<u32>,
    pub twice_param: Option<u32>,
    pub binds_reserved: Option<u32>,
}

impl RuleOffsets {
    /// There is no early error.
    fn none() -> RuleOffsets
        ensures { (rule : RegionRule) → offset_of result rule ≡ None }
    {
        RuleOffsets {
            twice_lexical: None,
            catch_and_lexical: None,
            param_and_lexical: None,
            twice_param: None,
            binds_reserved: None,
        }
    }

    /// Of each early error the smaller of two offsets.
    fn lessen(&mut self, other: RuleOffsets)
        ensures { (rule : RegionRule) → offset_of self.new rule ≡ smaller (offset_of self.old rule) (offset_of other rule) }
    {
        self.twice_lexical = lesser(self.twice_lexical, other.twice_lexical);
        self.catch_and_lexical = lesser(self.catch_and_lexical, other.catch_and_lexical);
        self.param_and_lexical = lesser(self.param_and_lexical, other.param_and_lexical);
        self.twice_param = lesser(self.twice_param, other.twice_param);
        self.binds_reserved = lesser(self.binds_reserved, other.binds_reserved);
    }
}

/// Regions whose lexical names count as those of the region around them.
#[derive(Clone, Copy)]
enum InnerKind {
    Block,
    Body,
}

/// Whether a region is of this kind.
fn is_inner(inner: InnerKind, kind: Region) -> bool
    ensures { result ≡ is_inner inner (region_of kind) }
{
    match inner {
        InnerKind::Block => matches!(kind, Region::Block),
        InnerKind::Body => matches!(kind, Region::VarBody),
    }
}

/// The names that are declared so in a region itself.
pub fn names_in(
    alloc: Global,
    rows: &[RegionRow],
    room: usize,
    region: u32,
    asked: Asked,
) -> Result<Vec<Ident>, AllocError>
    ensures { IfOk result (λ names. map name_of names.items ≡ directly (asks asked) (told_at room rows.now region)) }
{
    direct_names(alloc, asked, items_at(rows, room, region))
}

/// Adds the lexical names of a region inside, where it is of this kind.
fn add_inner(
    alloc: Global,
    rows: &[RegionRow],
    room: usize,
    inner: InnerKind,
    item: Item,
    names: &mut Vec<Ident>,
) -> Result<(), AllocError>
    ensures { OnOk result (GainsNames names.old.items names.new.items (lexical_below (is_inner inner) (told_by room rows.now item))) }
{
    match item {
        Item::Inner(region) => {
            if is_inner(inner, kind_at(rows, region)) {
                let own = names_in(alloc, rows, room, region, Asked::Lexical)?;
                names.extend_from_slice(&own)?;
            }
            Ok(())
        }
        Item::Declared(_, _) => Ok(()),
        Item::Used(_) => Ok(()),
        Item::Jumped(_, _) => Ok(()),
        Item::JumpedTo(_, _, _) => Ok(()),
    }
}

/// Adds the lexical names of the regions of this kind that are directly inside a region.
fn add_inners(
    alloc: Global,
    rows: &[RegionRow],
    room: usize,
    inner: InnerKind,
    region: u32,
    names: &mut Vec<Ident>,
) -> Result<(), AllocError>
    ensures { OnOk result (GainsNames names.old.items names.new.items (lexical_below (is_inner inner) (told_at room rows.now region))) }
{
    let items = items_at(rows, room, region);
    for item in items {
        add_inner(alloc, rows, room - 1, inner, *item, names)?;
    }
    Ok(())
}

/// The offset of the name of a function expression, where it may not be bound.
fn first_reserved_lambda(known: &WellKnownAtoms, kind: Region) -> Option<u32>
    ensures { result ≡ smallest (reserved nat_eq (known_names known.now) (lambda_name (region_of kind))) }
{
    match kind {
        Region::Lambda(name) => {
            let names = [name];
            first_reserved(known, &names)
        }
        Region::Script => None,
        Region::Function => None,
        Region::Arrow => None,
        Region::Block => None,
        Region::Switch => None,
        Region::ForHead => None,
        Region::Catch => None,
        Region::Loop => None,
        Region::Label(_) => None,
        Region::VarBody => None,
    }
}

/// The first lexical name of the block of a catch clause that equals its parameter.
fn first_catch(
    alloc: Global,
    rows: &[RegionRow],
    room: usize,
    region: u32,
    atoms: &mut AtomSet,
) -> Result<Option<u32>, AllocError>
    ensures { IfOk result (λ first. first ≡ smallest (equal_catch_param (told_at room rows.now region))) }
{
    let params = names_in(alloc, rows, room, region, Asked::Catch)?;
    if params.is_empty() {
        return Ok(None);
    }
    let mut lexical = Vec::new(alloc);
    add_inners(alloc, rows, room, InnerKind::Block, region, &mut lexical)?;
    first_also(atoms, &params, &lexical)
}

/// The first lexical name of the body of a function that equals a parameter, where its parameters and the lexical names of the
/// region itself are these.
fn first_param(
    alloc: Global,
    rows: &[RegionRow],
    room: usize,
    region: u32,
    params: &[Ident],
    lexical: Vec<Ident>,
    atoms: &mut AtomSet,
) -> Result<Option<u32>, AllocError>
    requires params { map name_of params.now ≡ directly is_param (told_at room rows.now region) }
    requires lexical { map name_of lexical.items ≡ directly is_lexical (told_at room rows.now region) }
    ensures { IfOk result (λ first. first ≡ smallest (equal_param (told_at room rows.now region))) }
{
    if params.is_empty() {
        return Ok(None);
    }
    let mut lexical = lexical;
    add_inners(alloc, rows, room, InnerKind::Body, region, &mut lexical)?;
    first_also(atoms, params, &lexical)
}

/// The offset of the name that an item declares, where it may not be bound.
fn reserved_in(known: &WellKnownAtoms, item: &Item) -> Option<u32>
    ensures { result ≡ smallest (reserved nat_eq (known_names known.now) (map name_of (filter_map (asked_in asked.All) (item.now ∷ [])))) }
{
    match declared(Asked::All, item) {
        None => None,
        Some(name) => {
            let names = [name];
            first_reserved(known, &names)
        }
    }
}

/// The smallest offset of a name that these items declare and that may not be bound.
fn first_reserved_in(known: &WellKnownAtoms, items: &[Item]) -> Option<u32>
    ensures { result ≡ smallest (reserved nat_eq (known_names known.now) (map name_of (filter_map (asked_in asked.All) items.now))) }
{
    let mut first = None;
    for item in items {
        first = lesser(first, reserved_in(known, item));
    }
    first
}

/// The first name that a region binds and that may not be bound.
fn first_bound_reserved(
    known: &WellKnownAtoms,
    rows: &[RegionRow],
    room: usize,
    kind: Region,
    region: u32,
) -> Option<u32>
    ensures { result ≡ first_at BindsReserved (known_names known.now) (region_of kind) (told_at room rows.now region) }
{
    let items = items_at(rows, room, region);
    lesser(
        first_reserved_lambda(known, kind),
        first_reserved_in(known, items),
    )
}

/// The smallest offsets at a region itself that declares no name.
fn offsets_without_names(known: &WellKnownAtoms, kind: Region) -> RuleOffsets
    ensures { (told : Told ℕ) → DeclaresNothing told → AreFirstAt (known_names known.now) result (region_of kind) told }
{
    let mut offsets = RuleOffsets::none();
    offsets.binds_reserved = first_reserved_lambda(known, kind);
    offsets
}

/// The smallest offset of each early error at a region itself.
fn offsets_at(
    alloc: Global,
    known: &WellKnownAtoms,
    rows: &[RegionRow],
    room: usize,
    kind: Region,
    region: u32,
    atoms: &mut AtomSet,
) -> Result<RuleOffsets, AllocError>
    ensures { IfOk result (λ offsets. AreFirstAt (known_names known.now) offsets (region_of kind) (told_at room rows.now region)) }
{
    if !declares_any(items_at(rows, room, region)) {
        return Ok(offsets_without_names(known, kind));
    }
    let lexical = names_in(alloc, rows, room, region, Asked::Lexical)?;
    let params = names_in(alloc, rows, room, region, Asked::Param)?;
    let twice_lexical = first_repeated(atoms, &lexical)?;
    let twice_param = first_repeated(atoms, &params)?;
    let catch_and_lexical = first_catch(alloc, rows, room, region, atoms)?;
    let param_and_lexical = first_param(alloc, rows, room, region, &params, lexical, atoms)?;
    let binds_reserved = first_bound_reserved(known, rows, room, kind, region);
    Ok(RuleOffsets {
        twice_lexical,
        catch_and_lexical,
        param_and_lexical,
        twice_param,
        binds_reserved,
    })
}

/// Takes the offsets of an item: those of all regions in it.
#[cycle(seeking)]
fn seek_in_item(
    alloc: Global,
    known: &WellKnownAtoms,
    rows: &[RegionRow],
    room: usize,
    item: Item,
    atoms: &mut AtomSet,
    offsets: &mut RuleOffsets,
) -> Result<(), AllocError>
    ensures { OnOk result (AreLessened (known_names known.now) offsets.old offsets.new (told_by room rows.now item)) }
{
    match item {
        Item::Inner(region) => {
            let kind = kind_at(rows, region);
            let own = offsets_at(alloc, known, rows, room, kind, region, atoms)?;
            offsets.lessen(own);
            seek_in(alloc, known, rows, room, region, atoms, offsets)?;
            Ok(())
        }
        Item::Declared(_, _) => Ok(()),
        Item::Used(_) => Ok(()),
        Item::Jumped(_, _) => Ok(()),
        Item::JumpedTo(_, _, _) => Ok(()),
    }
}

/// Takes the offsets of the regions inside a region.
#[cycle(seeking)]
fn seek_in(
    alloc: Global,
    known: &WellKnownAtoms,
    rows: &[RegionRow],
    room: usize,
    region: u32,
    atoms: &mut AtomSet,
    offsets: &mut RuleOffsets,
) -> Result<(), AllocError>
    ensures { OnOk result (AreLessened (known_names known.now) offsets.old offsets.new (told_at room rows.now region)) }
{
    let items = items_at(rows, room, region);
    for item in items {
        seek_in_item(alloc, known, rows, room - 1, *item, atoms, offsets)?;
    }
    Ok(())
}

/// Takes the offsets of an outermost region.
fn seek_in_outermost(
    alloc: Global,
    known: &WellKnownAtoms,
    rows: &[RegionRow],
    region: u32,
    around: Option<u32>,
    atoms: &mut AtomSet,
    offsets: &mut RuleOffsets,
) -> Result<(), AllocError>
    ensures { OnOk result (AreLessened (known_names known.now) offsets.old offsets.new (told_outermost rows.now region around)) }
{
    match around {
        Some(_) => Ok(()),
        None => seek_in_item(
            alloc,
            known,
            rows,
            rows.len(),
            Item::Inner(region),
            atoms,
            offsets,
        ),
    }
}

/// The smallest offset in a script of each early error that looks at one region.
pub fn rule_offsets(
    alloc: Global,
    known: &WellKnownAtoms,
    rows: &[RegionRow],
) -> Result<RuleOffsets, AllocError>
    requires { length rows.now ≤ 2 ^ 32 - 2 }
    ensures { IfOk result (λ offsets. AreFirstOf (known_names known.now) offsets (told_of_rows rows.now)) }
{
    let mut atoms = AtomSet::new(alloc);
    let mut offsets = RuleOffsets::none();
    for (region, row) in rows.iter().enumerate() {
        let number = region as u32;
        seek_in_outermost(
            alloc,
            known,
            rows,
            number,
            row.around,
            &mut atoms,
            &mut offsets,
        )?;
    }
    Ok(offsets)
}
