//! What a part of a script tells, and the functions in it, in as little memory as can be.

ghost use Rattle.std.specs.Prelude.{◌≡◌, ◌≤◌, ◌++◌, List, [], ◌∷◌, IfOk, OnOk};
ghost use Rattle.script_grammar.specs.Interpretation.{Interpretation};
ghost use Rattle.parse_track.specs.Log.{region_of};
ghost use Rattle.track_log_laws.specs.Spelled.{region_text};
ghost use Rattle.parse_track_pieces.specs.Pieces.{piece_says, pieces_say, says_region};
ghost use Rattle.parse_track_pieces.specs.Parts.{Appends};
ghost use Rattle.parse_track_pieces.specs.declared.piece.Piece.TheVariants as piece;
ghost use Rattle.parse_skim_handler.specs.Telling.{ArePartsOf, Joins, Tells, UsesBefore, function_says, told_found, told_says, use_says};
ghost use Rattle.parse_skim_handler.specs.declared.told.Told.TheVariants as told;

use parse_handlers::FoundFunction;
use parse_track::region::Region;
use parse_track_pieces::Piece;
use parse_track_pieces::piece::RegionHead;
use std::alloc::{AllocError, Global};

/// What is told, one piece after another, and the functions that were found.
#[derive(Drop)]
pub struct Parts {
    pub pieces: Vec<Piece>,
    pub found: Vec<FoundFunction>,
}

/// A function with its region.
#[derive(Drop)]
pub struct FunctionTold {
    /// What its region is.
    pub head: RegionHead,
    /// What stands in its region.
    pub pieces: Vec<Piece>,
    /// The function that was found.
    pub found: FoundFunction,
}

/// What a part of a script tells, and the functions in it. Most parts tell nothing or use up to three names, and take no memory; an empty
/// block takes none either, and a function alone one box.
#[derive(Drop)]
pub enum Told {
    Nothing,
    /// A name is used, by its atom.
    Used { atom: u32 },
    /// Two names are used, one after the other.
    Two { first: u32, second: u32 },
    /// Three names are used, one after the other.
    Three { first: u32, second: u32, third: u32 },
    /// The region of a block in which nothing stands.
    EmptyBlock,
    /// A region with what stands in it, and no function.
    Inside(Box<(RegionHead, Vec<Piece>)>),
    /// A function, and no other directly beside it.
    Function(Box<FunctionTold>),
    Parts(Box<Parts>),
}

/// As many pieces are moved one by one after others; more stay together, so that a piece that stands deep is moved seldom.
const FEW: usize = 8;

/// A list of this piece, with room for more.
fn one_piece(alloc: Global, piece: Piece, more: usize) -> Result<Vec<Piece>, AllocError>
    requires { more ≤ 4 }
    ensures { IfOk result (λ pieces. pieces.items ≡ piece ∷ []) }
{
    let mut pieces = Vec::with_capacity(alloc, 1 + more)?;
    pieces.push(piece)?;
    Ok(pieces)
}

/// Parts in which no function is.
fn alone(alloc: Global, pieces: Vec<Piece>) -> Parts
    ensures pieces { result.pieces.items ≡ pieces.items }
    ensures found { result.found.items ≡ [] }
{
    let found = Vec::new(alloc);
    Parts { pieces, found }
}

/// The parts of this piece, with room for more.
fn piece_parts(alloc: Global, piece: Piece, more: usize) -> Result<Parts, AllocError>
    requires { more ≤ 2 }
    ensures pieces { IfOk result (λ parts. parts.pieces.items ≡ piece ∷ []) }
    ensures found { IfOk result (λ parts. parts.found.items ≡ []) }
{
    let pieces = one_piece(alloc, piece, more)?;
    Ok(alone(alloc, pieces))
}

/// A list of this function. Most parts have no other, so the list has no room for more.
fn one_function(alloc: Global, found: FoundFunction) -> Result<Vec<FoundFunction>, AllocError>
    ensures { IfOk result (λ functions. functions.items ≡ found ∷ []) }
{
    let mut functions = Vec::with_capacity(alloc, 1)?;
    functions.push(found)?;
    Ok(functions)
}

/// The parts of a function, with room for more pieces.
fn function_parts(
    alloc: Global,
    function: Box<FunctionTold>,
    more: usize,
) -> Result<Parts, AllocError>
    requires { more ≤ 2 }
    ensures { IfOk result (ArePartsOf (told.Function function)) }
{
    let FunctionTold {
        head,
        pieces,
        found,
    } = Box::into_inner(function);
    let region = Piece::region(alloc, head.kind, head.at, pieces)?;
    let pieces = one_piece(alloc, region, more)?;
    let found = one_function(alloc, found)?;
    Ok(Parts { pieces, found })
}

/// The parts that tell what is told, with room for more pieces.
fn roomy_parts(alloc: Global, told: Told, more: usize) -> Result<Parts, AllocError>
    requires { more ≤ 2 }
    ensures { IfOk result (ArePartsOf told) }
{
    match told {
        Told::Nothing => {
            let pieces = Vec::with_capacity(alloc, more)?;
            Ok(alone(alloc, pieces))
        }
        Told::Used { atom } => Ok(piece_parts(alloc, Piece::Used { atom }, more)?),
        Told::Two { first, second } => {
            let mut pieces = one_piece(alloc, Piece::Used { atom: first }, 1 + more)?;
            pieces.push(Piece::Used { atom: second })?;
            Ok(alone(alloc, pieces))
        }
        Told::Three {
            first,
            second,
            third,
        } => {
            let mut pieces = one_piece(alloc, Piece::Used { atom: first }, 2 + more)?;
            pieces.push(Piece::Used { atom: second })?;
            pieces.push(Piece::Used { atom: third })?;
            Ok(alone(alloc, pieces))
        }
        Told::EmptyBlock => Ok(piece_parts(alloc, Piece::EmptyBlock, more)?),
        Told::Inside(region) => Ok(piece_parts(alloc, Piece::Inside(region), more)?),
        Told::Function(function) => function_parts(alloc, function, more),
        Told::Parts(parts) => Ok(Box::into_inner(parts)),
    }
}

/// The parts that tell what is told.
pub(crate) fn parts_of(alloc: Global, told: Told) -> Result<Parts, AllocError>
    ensures { IfOk result (ArePartsOf told) }
{
    roomy_parts(alloc, told, 0)
}

/// The same parts in a box, which is there where they are; with room for more pieces where it is not.
fn opened(alloc: Global, told: Told, more: usize) -> Result<Box<Parts>, AllocError>
    requires { more ≤ 2 }
    ensures { IfOk result (λ parts. ArePartsOf told parts.value) }
{
    match told {
        Told::Parts(parts) => Ok(parts),
        other => {
            let parts = roomy_parts(alloc, other, more)?;
            let boxed = Box::new(alloc, parts)?;
            Ok(boxed)
        }
    }
}

/// A piece after the pieces that are there.
fn push(parts: &mut Parts, piece: Piece) -> Result<(), AllocError>
    ensures pieces { OnOk result (parts.new.pieces.items ≡ parts.old.pieces.items ++ (piece ∷ [])) }
    ensures found { OnOk result (parts.new.found.items ≡ parts.old.found.items) }
{
    parts.pieces.push(piece)?;
    Ok(())
}

/// Functions after the functions that are there. Where none is, the list is taken as it is.
fn find_all(parts: &mut Parts, mut found: Vec<FoundFunction>) -> Result<(), AllocError>
    ensures pieces { OnOk result (parts.new.pieces.items ≡ parts.old.pieces.items) }
    ensures found { OnOk result (parts.new.found.items ≡ parts.old.found.items ++ found.items) }
{
    let there: &[FoundFunction] = &parts.found;
    if there.is_empty() {
        parts.found = found;
    } else {
        parts.found.append(&mut found)?;
    }
    Ok(())
}

/// A function after the functions that are there.
fn find(alloc: Global, parts: &mut Parts, found: FoundFunction) -> Result<(), AllocError>
    ensures pieces { OnOk result (parts.new.pieces.items ≡ parts.old.pieces.items) }
    ensures found { OnOk result (parts.new.found.items ≡ parts.old.found.items ++ (found ∷ [])) }
{
    let others: &[FoundFunction] = &parts.found;
    if others.is_empty() {
        parts.found = one_function(alloc, found)?;
    } else {
        parts.found.push(found)?;
    }
    Ok(())
}

/// Pieces after the pieces that are there, one by one or together.
fn push_all(alloc: Global, parts: &mut Parts, mut pieces: Vec<Piece>) -> Result<(), AllocError>
    ensures pieces { OnOk result ((i : Interpretation) → Appends i parts.old.pieces.items parts.new.pieces.items (pieces_say i pieces.items)) }
    ensures found { OnOk result (parts.new.found.items ≡ parts.old.found.items) }
{
    if pieces.len() <= FEW {
        parts.pieces.append(&mut pieces)?;
        Ok(())
    } else {
        let many = Piece::many(alloc, pieces)?;
        push(parts, many)?;
        Ok(())
    }
}

/// A piece after what is told.
pub(crate) fn with_piece(alloc: Global, told: Told, piece: Piece) -> Result<Told, AllocError>
    ensures { IfOk result (λ new. Tells told new (λ i. piece_says i piece) []) }
{
    let mut parts = opened(alloc, told, 2)?;
    push(&mut *parts, piece)?;
    Ok(Told::Parts(parts))
}

/// A name that is used, after what is told.
fn with_use(alloc: Global, told: Told, atom: u32) -> Result<Told, AllocError>
    ensures { IfOk result (λ new. Tells told new (λ i. use_says i atom) []) }
{
    match told {
        Told::Nothing => Ok(Told::Used { atom }),
        Told::Used { atom: first } => Ok(Told::Two {
            first,
            second: atom,
        }),
        Told::Two { first, second } => Ok(Told::Three {
            first,
            second,
            third: atom,
        }),
        other => with_piece(alloc, other, Piece::Used { atom }),
    }
}

/// A name that is used, before many parts, which stay together.
fn used_and_many(alloc: Global, atom: u32, others: Parts) -> Result<Box<Parts>, AllocError>
    ensures { IfOk result (λ parts. UsesBefore atom others parts.value) }
{
    let Parts {
        pieces: many,
        found,
    } = others;
    let together = Piece::many(alloc, many)?;
    let mut pieces = Vec::with_capacity(alloc, 2)?;
    pieces.push(Piece::Used { atom })?;
    pieces.push(together)?;
    let boxed = Box::new(alloc, Parts { pieces, found })?;
    Ok(boxed)
}

/// A name that is used, before the pieces that are there.
fn insert_use(parts: &mut Parts, atom: u32) -> Result<(), AllocError>
    ensures pieces { OnOk result (parts.new.pieces.items ≡ piece.Used atom ∷ parts.old.pieces.items) }
    ensures found { OnOk result (parts.new.found.items ≡ parts.old.found.items) }
{
    parts.pieces.insert(0, Piece::Used { atom })?;
    Ok(())
}

/// A name that is used, and parts after it.
fn use_before(alloc: Global, atom: u32, mut others: Box<Parts>) -> Result<Box<Parts>, AllocError>
    ensures { IfOk result (λ parts. UsesBefore atom others.value parts.value) }
{
    if others.pieces.len() > FEW {
        return used_and_many(alloc, atom, Box::into_inner(others));
    }
    insert_use(&mut *others, atom)?;
    Ok(others)
}

/// Parts after parts.
fn join(alloc: Global, mut parts: Box<Parts>, others: Box<Parts>) -> Result<Box<Parts>, AllocError>
    ensures { IfOk result (λ made. Joins parts.value others.value made.value) }
{
    let Parts { pieces, found } = Box::into_inner(others);
    push_all(alloc, &mut *parts, pieces)?;
    find_all(&mut *parts, found)?;
    Ok(parts)
}

/// Parts after what is told.
fn with_parts(alloc: Global, told: Told, others: Box<Parts>) -> Result<Told, AllocError>
    ensures { IfOk result (λ new. Tells told new (λ i. pieces_say i others.value.pieces.items) others.value.found.items) }
{
    match told {
        Told::Nothing => Ok(Told::Parts(others)),
        Told::Used { atom } => {
            let parts = use_before(alloc, atom, others)?;
            Ok(Told::Parts(parts))
        }
        Told::Two { first, second } => {
            let rest = use_before(alloc, second, others)?;
            let parts = use_before(alloc, first, rest)?;
            Ok(Told::Parts(parts))
        }
        other => {
            let begun = opened(alloc, other, 2)?;
            let parts = join(alloc, begun, others)?;
            Ok(Told::Parts(parts))
        }
    }
}

/// A region in which no function is, after what is told.
fn with_inside(
    alloc: Global,
    told: Told,
    region: Box<(RegionHead, Vec<Piece>)>,
) -> Result<Told, AllocError>
    ensures { IfOk result (λ new. Tells told new (λ i. piece_says i (piece.Inside region)) []) }
{
    match told {
        Told::Nothing => Ok(Told::Inside(region)),
        other => with_piece(alloc, other, Piece::Inside(region)),
    }
}

/// A block in which nothing stands, after what is told.
fn with_empty_block(alloc: Global, told: Told) -> Result<Told, AllocError>
    ensures { IfOk result (λ new. Tells told new (λ i. piece_says i piece.EmptyBlock) []) }
{
    match told {
        Told::Nothing => Ok(Told::EmptyBlock),
        other => with_piece(alloc, other, Piece::EmptyBlock),
    }
}

/// A function after what is told.
pub(crate) fn with_function(
    alloc: Global,
    told: Told,
    function: Box<FunctionTold>,
) -> Result<Told, AllocError>
    ensures { IfOk result (λ new. Tells told new (λ i. function_says i function.value) (function.value.found ∷ [])) }
{
    match told {
        Told::Nothing => Ok(Told::Function(function)),
        other => function_after(alloc, other, Box::into_inner(function)),
    }
}

/// A function after what is told, among the parts of which it is put.
fn function_after(alloc: Global, told: Told, function: FunctionTold) -> Result<Told, AllocError>
    ensures { IfOk result (λ new. Tells told new (λ i. function_says i function) (function.found ∷ [])) }
{
    let FunctionTold {
        head,
        pieces,
        found,
    } = function;
    let mut parts = opened(alloc, told, 1)?;
    let piece = Piece::region(alloc, head.kind, head.at, pieces)?;
    push(&mut *parts, piece)?;
    find(alloc, &mut *parts, found)?;
    Ok(Told::Parts(parts))
}

/// One after the other.
pub(crate) fn then(alloc: Global, told: Told, other: Told) -> Result<Told, AllocError>
    ensures { IfOk result (λ new. Tells told new (λ i. told_says i other) (told_found other)) }
{
    match other {
        Told::Nothing => Ok(told),
        Told::Used { atom } => with_use(alloc, told, atom),
        Told::Two { first, second } => {
            let one = with_use(alloc, told, first)?;
            with_use(alloc, one, second)
        }
        Told::Three {
            first,
            second,
            third,
        } => {
            let one = with_use(alloc, told, first)?;
            let two = with_use(alloc, one, second)?;
            with_use(alloc, two, third)
        }
        Told::EmptyBlock => with_empty_block(alloc, told),
        Told::Inside(region) => with_inside(alloc, told, region),
        Told::Function(function) => with_function(alloc, told, function),
        Told::Parts(others) => with_parts(alloc, told, others),
    }
}

/// A region after what is told, in which nothing stands.
fn with_empty_region(alloc: Global, told: Told, kind: Region) -> Result<Told, AllocError>
    ensures { IfOk result (λ new. Tells told new (λ i. says_region (region_text i (region_of kind)) 0 (λ inside. inside)) []) }
{
    match kind {
        Region::Block => with_empty_block(alloc, told),
        other => {
            let head = RegionHead { kind: other, at: 0 };
            let region = Box::new(alloc, (head, Vec::new(alloc)))?;
            with_inside(alloc, told, region)
        }
    }
}

/// A region after what is told, in which these parts stand.
fn with_region_of(
    alloc: Global,
    told: Told,
    kind: Region,
    inside: Parts,
) -> Result<Told, AllocError>
    ensures { IfOk result (λ new. Tells told new (λ i. says_region (region_text i (region_of kind)) 0 (pieces_say i inside.pieces.items)) inside.found.items) }
{
    let Parts { pieces, found } = inside;
    let region = Box::new(alloc, (RegionHead { kind, at: 0 }, pieces))?;
    let functions: &[FoundFunction] = &found;
    if functions.is_empty() {
        let made = with_inside(alloc, told, region)?;
        return Ok(made);
    }
    let mut parts = opened(alloc, told, 1)?;
    push(&mut *parts, Piece::Inside(region))?;
    find_all(&mut *parts, found)?;
    Ok(Told::Parts(parts))
}

/// A region that is no function, after what is told, in which this is told.
pub(crate) fn with_region(
    alloc: Global,
    told: Told,
    kind: Region,
    inside: Told,
) -> Result<Told, AllocError>
    ensures { IfOk result (λ new. Tells told new (λ i. says_region (region_text i (region_of kind)) 0 (told_says i inside)) (told_found inside)) }
{
    match inside {
        Told::Nothing => with_empty_region(alloc, told, kind),
        other => {
            let parts = parts_of(alloc, other)?;
            with_region_of(alloc, told, kind, parts)
        }
    }
}
