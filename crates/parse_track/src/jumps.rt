//! The first jump without its target, and the first label inside the same label.

ghost use Rattle.std.specs.Prelude.{◌≡◌, ◌<◌, ◌≤◌, ◌-◌, ◌^◌, ◌∷◌, [], ℕ, Bool, Option, None, Some, false, cond, length, slice_get, IfOk};
ghost use Rattle.std.specs.Prelude.{OnOk, IsSome, ◌++◌, map, nat_eq};
ghost use Rattle.std.specs.List.{list_any};
ghost use Rattle.parse_track.specs.Told.{Jumped, Loop as LoopRegion, Switch as SwitchRegion, Label as LabelRegion};
ghost use Rattle.parse_track.specs.EarlyErrors.{smaller, smallest, nothing_around, is_loop, wrong_jump, wrong_label, wrong_jumps};
ghost use Rattle.parse_track.specs.Log.{name_of, label_of, region_of, kind_of};
ghost use Rattle.parse_track.specs.Rows.{item_of, row_of, told_at, told_by, told_outermost, told_of_rows};
ghost use Rattle.parse_track.specs.Targets.{around_of, AreWrongJumps, AreWrongIn, labelled, first_inner, loop_kind};

use crate::closed::kind_at;
use crate::names::items_at;
use crate::offsets::lesser;
use crate::region::{Jump, Region};
use crate::track::{Item, RegionRow};
use script_grammar::tree::Ident;
use std::alloc::{AllocError, Global};

/// What a jump finds around it in its function.
#[derive(Drop)]
pub struct Targets {
    pub in_loop: bool,
    /// Whether a loop or a switch is around.
    pub leaves: bool,
    pub labels: Vec<u32>,
    /// Those of the labels that label a loop.
    pub loops: Vec<u32>,
}

impl Targets {
    /// Nothing is around.
    fn new(alloc: Global) -> Targets
        ensures { around_of result ≡ nothing_around }
    {
        Targets {
            in_loop: false,
            leaves: false,
            labels: Vec::new(alloc),
            loops: Vec::new(alloc),
        }
    }
}

/// Whether a name is among these.
fn is_among(names: &[u32], name: u32) -> bool
    ensures { result ≡ list_any (nat_eq name) names.now }
{
    names.iter().any(|other| name == *other)
}

/// This offset, unless a target was found.
fn unless(found: bool, at: u32) -> Option<u32>
    ensures { result ≡ smallest (cond found [] (at ∷ [])) }
{
    if found { None } else { Some(at) }
}

/// Where a jump has no target: at its word, or at its label.
fn wrong_jump(targets: &Targets, word: Jump, at: u32, label: Option<Ident>) -> Option<u32>
    ensures { result ≡ smallest (wrong_jump nat_eq (around_of targets.now) (Jumped word at (label_of label))) }
{
    match (word, label) {
        (Jump::Break, None) => unless(targets.leaves, at),
        (Jump::Continue, None) => unless(targets.in_loop, at),
        (Jump::Break, Some(label)) => unless(is_among(&targets.labels, label.atom), label.at),
        (Jump::Continue, Some(label)) => lesser(
            unless(targets.in_loop, at),
            unless(is_among(&targets.loops, label.atom), label.at),
        ),
    }
}

/// Where a label stands inside the same label.
fn wrong_label(targets: &Targets, kind: Region) -> Option<u32>
    ensures { result ≡ smallest (wrong_label nat_eq (around_of targets.now) (region_of kind)) }
{
    match kind {
        Region::Label(name) => {
            if is_among(&targets.labels, name.atom) {
                Some(name.at)
            } else {
                None
            }
        }
        Region::Script => None,
        Region::Function => None,
        Region::Arrow => None,
        Region::Lambda(_) => None,
        Region::Block => None,
        Region::Switch => None,
        Region::ForHead => None,
        Region::Catch => None,
        Region::Loop => None,
        Region::VarBody => None,
    }
}

/// A label is around, of a loop or of another statement.
fn add_label(targets: &mut Targets, name: u32, of_loop: bool) -> Result<(), AllocError>
    ensures { OnOk result (around_of targets.new ≡ labelled (around_of targets.old) name of_loop) }
{
    targets.labels.push(name)?;
    if of_loop {
        targets.loops.push(name)?;
    }
    Ok(())
}

/// The region that stands first among these items.
fn first_inner(items: &[Item]) -> Option<u32>
    ensures first { result ≡ first_inner (map item_of items.now) }
    ensures some { IsSome result → 0 < length items.now }
{
    match items.first() {
        Some(Item::Inner(region)) => Some(*region),
        Some(Item::Declared(_, _)) => None,
        Some(Item::Used(_)) => None,
        Some(Item::Jumped(_, _)) => None,
        Some(Item::JumpedTo(_, _, _)) => None,
        None => None,
    }
}

/// Whether a region is a loop, also after labels.
#[cycle(loops)]
fn is_loop_at(rows: &[RegionRow], room: usize, region: u32) -> bool
    ensures { result ≡ loop_kind (kind_of (slice_get (map row_of rows.now) region)) (told_at room rows.now region) }
{
    match kind_at(rows, region) {
        Region::Loop => true,
        Region::Label(_) => is_loop(rows, room, region),
        Region::Script => false,
        Region::Function => false,
        Region::Arrow => false,
        Region::Lambda(_) => false,
        Region::Block => false,
        Region::Switch => false,
        Region::ForHead => false,
        Region::Catch => false,
        Region::VarBody => false,
    }
}

/// Whether what stands in a region is a loop, also after labels.
#[cycle(loops)]
fn is_loop(rows: &[RegionRow], room: usize, region: u32) -> bool
    ensures { result ≡ is_loop (told_at room rows.now region) }
{
    match first_inner(items_at(rows, room, region)) {
        Some(inner) => is_loop_at(rows, room - 1, inner),
        None => false,
    }
}

/// The first wrong jump in what an item tells.
#[cycle(jumping)]
fn jumps_in_item(
    alloc: Global,
    rows: &[RegionRow],
    room: usize,
    item: Item,
    targets: &mut Targets,
) -> Result<Option<u32>, AllocError>
    ensures { IfOk result (AreWrongJumps (around_of targets.old) (around_of targets.old) (around_of targets.new) (told_by room rows.now item)) }
{
    match item {
        Item::Declared(_, _) => Ok(None),
        Item::Used(_) => Ok(None),
        Item::Jumped(word, at) => Ok(wrong_jump(targets, word, at, None)),
        Item::JumpedTo(word, at, label) => Ok(wrong_jump(targets, word, at, Some(label))),
        Item::Inner(region) => {
            let kind = kind_at(rows, region);
            let own = wrong_label(targets, kind);
            let inside = jumps_inside(alloc, rows, room, kind, region, targets)?;
            let first = lesser(own, inside);
            Ok(first)
        }
    }
}

/// The first wrong jump inside a region of this kind.
#[cycle(jumping)]
fn jumps_inside(
    alloc: Global,
    rows: &[RegionRow],
    room: usize,
    kind: Region,
    region: u32,
    targets: &mut Targets,
) -> Result<Option<u32>, AllocError>
    ensures { IfOk result (AreWrongIn (region_of kind) (around_of targets.old) (around_of targets.new) (told_at room rows.now region)) }
{
    match kind {
        Region::Script => jumps_in_function(alloc, rows, room, region),
        Region::Function => jumps_in_function(alloc, rows, room, region),
        Region::Arrow => jumps_in_function(alloc, rows, room, region),
        Region::Loop => jumps_in_loop(alloc, rows, room, region, targets),
        Region::Switch => jumps_in_switch(alloc, rows, room, region, targets),
        Region::Label(name) => jumps_in_label(alloc, rows, room, name, region, targets),
        Region::Lambda(_) => jumps_in(alloc, rows, room, region, targets),
        Region::Block => jumps_in(alloc, rows, room, region, targets),
        Region::ForHead => jumps_in(alloc, rows, room, region, targets),
        Region::Catch => jumps_in(alloc, rows, room, region, targets),
        Region::VarBody => jumps_in(alloc, rows, room, region, targets),
    }
}

/// The first wrong jump inside a function or a script, where nothing is around.
#[cycle(jumping)]
fn jumps_in_function(
    alloc: Global,
    rows: &[RegionRow],
    room: usize,
    region: u32,
) -> Result<Option<u32>, AllocError>
    ensures { IfOk result (λ first. first ≡ smallest (wrong_jumps nat_eq nothing_around (told_at room rows.now region))) }
{
    let mut targets = Targets::new(alloc);
    let first = jumps_in(alloc, rows, room, region, &mut targets)?;
    Ok(first)
}

/// The first wrong jump inside a loop.
#[cycle(jumping)]
fn jumps_in_loop(
    alloc: Global,
    rows: &[RegionRow],
    room: usize,
    region: u32,
    targets: &mut Targets,
) -> Result<Option<u32>, AllocError>
    ensures { IfOk result (AreWrongIn LoopRegion (around_of targets.old) (around_of targets.new) (told_at room rows.now region)) }
{
    let in_loop = targets.in_loop;
    let leaves = targets.leaves;
    targets.in_loop = true;
    targets.leaves = true;
    let first = jumps_in(alloc, rows, room, region, targets)?;
    targets.in_loop = in_loop;
    targets.leaves = leaves;
    Ok(first)
}

/// The first wrong jump inside a switch.
#[cycle(jumping)]
fn jumps_in_switch(
    alloc: Global,
    rows: &[RegionRow],
    room: usize,
    region: u32,
    targets: &mut Targets,
) -> Result<Option<u32>, AllocError>
    ensures { IfOk result (AreWrongIn SwitchRegion (around_of targets.old) (around_of targets.new) (told_at room rows.now region)) }
{
    let leaves = targets.leaves;
    targets.leaves = true;
    let first = jumps_in(alloc, rows, room, region, targets)?;
    targets.leaves = leaves;
    Ok(first)
}

/// The first wrong jump after a label.
#[cycle(jumping)]
fn jumps_in_label(
    alloc: Global,
    rows: &[RegionRow],
    room: usize,
    name: Ident,
    region: u32,
    targets: &mut Targets,
) -> Result<Option<u32>, AllocError>
    ensures { IfOk result (AreWrongIn (LabelRegion (name_of name)) (around_of targets.old) (around_of targets.new) (told_at room rows.now region)) }
{
    let labels = targets.labels.len();
    let loops = targets.loops.len();
    add_label(targets, name.atom, is_loop(rows, room, region))?;
    let first = jumps_in(alloc, rows, room, region, targets)?;
    targets.labels.truncate(labels);
    targets.loops.truncate(loops);
    Ok(first)
}

/// The first wrong jump in what a region tells.
#[cycle(jumping)]
fn jumps_in(
    alloc: Global,
    rows: &[RegionRow],
    room: usize,
    region: u32,
    targets: &mut Targets,
) -> Result<Option<u32>, AllocError>
    ensures { IfOk result (AreWrongJumps (around_of targets.old) (around_of targets.old) (around_of targets.new) (told_at room rows.now region)) }
{
    let mut first = None;
    let items = items_at(rows, room, region);
    for item in items {
        let here = jumps_in_item(alloc, rows, room - 1, *item, targets)?;
        first = lesser(first, here);
    }
    Ok(first)
}

/// The first wrong jump in an outermost region.
fn jumps_in_outermost(
    alloc: Global,
    rows: &[RegionRow],
    region: u32,
    around: Option<u32>,
) -> Result<Option<u32>, AllocError>
    ensures { IfOk result (λ first. first ≡ smallest (wrong_jumps nat_eq nothing_around (told_outermost rows.now region around))) }
{
    match around {
        Some(_) => Ok(None),
        None => {
            let mut targets = Targets::new(alloc);
            let first = jumps_in_item(alloc, rows, rows.len(), Item::Inner(region), &mut targets)?;
            Ok(first)
        }
    }
}

/// The first jump without its target, or label inside the same label, in a script.
pub fn first_wrong_jump(alloc: Global, rows: &[RegionRow]) -> Result<Option<u32>, AllocError>
    requires { length rows.now ≤ 2 ^ 32 - 2 }
    ensures { IfOk result (λ first. first ≡ smallest (wrong_jumps nat_eq nothing_around (told_of_rows rows.now))) }
{
    let mut first = None;
    for (region, row) in rows.iter().enumerate() {
        let here = jumps_in_outermost(alloc, rows, region as u32, row.around)?;
        first = lesser(first, here);
    }
    Ok(first)
}
