//! Where the listing of a merged stencil is cut into pieces.

ghost use Rattle.std.specs.Prelude.{◌≡◌, ◌+◌, ◌^◌, ◌<◌, IfOk, OnOk};
ghost use Rattle.script_image.specs.Cutting.{HasPart, IsCutTo};
ghost use Rattle.script_image.specs.Pieces.{ArePieces, Lead, script_count};

use crate::code_lines::offset_behind;
use crate::pieces::{Piece, Place};
use crate::script_lines::{Listing, part_of};
use std::alloc::{AllocError, Global};
use stencil_data::{Entry, FunctionStencil, LazyRecord, MergedStencil, ScopeData};

/// How many bytes the scripts of a piece have in code, or in what else is told of them, if the last one is left out.
const PIECE_BYTES: usize = 8192;

/// How many instructions a piece has that lies within one script.
const PIECE_INSTRUCTIONS: usize = 2048;

/// How many bytes stand for what is listed of a script's scopes.
fn scopes_size(scopes: &[ScopeData]) -> usize {
    let mut size = 0usize;
    for scope in scopes {
        size = size.saturating_add(scope.bindings.len().saturating_add(1).saturating_mul(8));
    }
    size
}

/// How many bytes stand for what is listed of a compiled script.
fn part_size(listing: Listing, part: &FunctionStencil) -> usize {
    match listing {
        Listing::Code => part
            .code
            .len()
            .saturating_add(part.notes.len().saturating_mul(8)),
        Listing::Scopes => scopes_size(&part.scopes),
    }
}

/// How many bytes stand for what is listed of a function that is not compiled.
fn record_size(lazy: &LazyRecord) -> usize {
    lazy.inner
        .len()
        .saturating_add(lazy.closed.len())
        .saturating_mul(4)
}

/// How many bytes stand for what is listed of the script of this number.
fn size_of(listing: Listing, merged: &MergedStencil, number: usize) -> usize
    requires { number < script_count merged.now }
{
    if number == 0 {
        return part_size(listing, &merged.top);
    }
    match &merged.entries[number - 1] {
        Entry::Lazy => record_size(&merged.records[number - 1]),
        Entry::Compiled(part) => part_size(listing, part),
    }
}

/// How many scripts a merged stencil has, the file's own part among them.
pub(crate) fn count_of(merged: &MergedStencil) -> usize
    ensures { result ≡ script_count merged.now }
{
    merged.records.len().min(merged.entries.len()) + 1
}

/// What was cut so far.
#[derive(Drop)]
pub struct Cuts {
    pub(crate) pieces: Vec<Piece>,
    /// The script before which the next piece begins.
    pub(crate) from: usize,
    /// How many bytes the scripts have that were passed and are in no piece yet.
    pub(crate) held: usize,
}

impl Cuts {
    /// Ends a piece before the script of this number.
    fn cut_before(
        &mut self,
        listing: Listing,
        merged: &MergedStencil,
        number: usize,
    ) -> Result<(), AllocError>
        requires { IsCutTo listing merged.now self.old number }
        ensures lead { OnOk result (Lead listing merged.now (Place.Before 0) self.new.pieces.items (Place.Before number)) }
        ensures from { OnOk result (self.new.from ≡ number) }
    {
        let from = Place::Before { number: self.from };
        let to = Place::Before { number };
        self.pieces.push(Piece { from, to })?;
        self.from = number;
        self.held = 0;
        Ok(())
    }

    /// Passes a script whose code is listed in pieces of its own.
    fn pass_large(
        &mut self,
        merged: &MergedStencil,
        number: usize,
        code: &[u8],
    ) -> Result<(), AllocError>
        requires number { number < script_count merged.now }
        requires few { script_count merged.now < 2 ^ 64 }
        requires part { HasPart merged.now number code.now }
        requires cut { IsCutTo Listing.Code merged.now self.old number }
        ensures { OnOk result (IsCutTo Listing.Code merged.now self.new (number + 1)) }
    {
        self.cut_before(Listing::Code, merged, number)?;
        push_within(&mut self.pieces, merged, number, code)?;
        self.from = number + 1;
        Ok(())
    }

    /// Passes a script that is in a piece whole.
    fn pass_whole(
        &mut self,
        listing: Listing,
        merged: &MergedStencil,
        number: usize,
        size: usize,
    ) -> Result<(), AllocError>
        requires number { number < script_count merged.now }
        requires few { script_count merged.now < 2 ^ 64 }
        requires cut { IsCutTo listing merged.now self.old number }
        ensures { OnOk result (IsCutTo listing merged.now self.new (number + 1)) }
    {
        self.held = self.held.saturating_add(size);
        if self.held < PIECE_BYTES {
            return Ok(());
        }
        self.cut_before(listing, merged, number + 1)?;
        Ok(())
    }

    /// Passes a script.
    fn pass(
        &mut self,
        listing: Listing,
        merged: &MergedStencil,
        number: usize,
    ) -> Result<(), AllocError>
        requires number { number < script_count merged.now }
        requires few { script_count merged.now < 2 ^ 64 }
        requires cut { IsCutTo listing merged.now self.old number }
        ensures { OnOk result (IsCutTo listing merged.now self.new (number + 1)) }
    {
        let size = size_of(listing, merged, number);
        if size < PIECE_BYTES {
            self.pass_whole(listing, merged, number, size)?;
            return Ok(());
        }
        match listing {
            Listing::Code => match part_of(merged, number) {
                Some(part) => self.pass_large(merged, number, &part.code)?,
                None => self.pass_whole(listing, merged, number, size)?,
            },
            Listing::Scopes => self.pass_whole(listing, merged, number, size)?,
        }
        Ok(())
    }
}

/// Appends the pieces of a script whose code is this.
fn push_within(
    pieces: &mut Vec<Piece>,
    merged: &MergedStencil,
    number: usize,
    code: &[u8],
) -> Result<(), AllocError>
    requires number { number < script_count merged.now }
    requires few { script_count merged.now < 2 ^ 64 }
    requires part { HasPart merged.now number code.now }
    requires lead { Lead Listing.Code merged.now (Place.Before 0) pieces.old.items (Place.Before number) }
    ensures { OnOk result (Lead Listing.Code merged.now (Place.Before 0) pieces.new.items (Place.Before (number + 1))) }
{
    let mut at = 0;
    let mut turn = 0;
    let from = Place::Before { number };
    let to = Place::Within { number, at, turn };
    pieces.push(Piece { from, to })?;
    while at < code.len() && PIECE_INSTRUCTIONS < code.len() - turn {
        let next = offset_behind(code, at, PIECE_INSTRUCTIONS);
        let end = turn + PIECE_INSTRUCTIONS;
        let from = Place::Within { number, at, turn };
        let to = Place::Within {
            number,
            at: next,
            turn: end,
        };
        pieces.push(Piece { from, to })?;
        at = next;
        turn = end;
    }
    let from = Place::Within { number, at, turn };
    let to = Place::Before { number: number + 1 };
    pieces.push(Piece { from, to })?;
    Ok(())
}

/// The pieces of the listing of a merged stencil, in order: all lines of some scripts that have few each, or some lines of the
/// code of one. Where they are cut depends on the stencil alone.
pub fn pieces_of(
    alloc: Global,
    listing: Listing,
    merged: &MergedStencil,
) -> Result<Vec<Piece>, AllocError>
    ensures { IfOk result (λ pieces. ArePieces listing merged.now pieces.items) }
{
    let pieces = Vec::new(alloc);
    let mut cuts = Cuts {
        pieces,
        from: 0,
        held: 0,
    };
    let count = count_of(merged);
    for number in 0..count {
        cuts.pass(listing, merged, number)?;
    }
    cuts.cut_before(listing, merged, count)?;
    let Cuts { pieces, .. } = cuts;
    Ok(pieces)
}
