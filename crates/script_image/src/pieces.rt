//! The listing of a merged stencil in pieces, one after another.

ghost use Rattle.std.specs.Prelude.{◌≡◌, ◌+◌, ◌<◌, ◌≤◌, ◌++◌, List, IfOk, OnOk};
ghost use Rattle.stencil_data.specs.Named.{NamedMerged};
ghost use Rattle.stencil_data.specs.StandsFor.{MergedStandsFor};
ghost use Rattle.bytecode_buf.specs.Command.{Listed};
ghost use Rattle.script_image.specs.Listed.{ShowsListed};
ghost use Rattle.script_image.specs.ScriptLines as lines;
ghost use Rattle.script_image.specs.Pieces.{HasCode, IsPiece, IsTextOf, Walks, from_place, from_script, part_at, script_count};

use crate::code_lines::{append_code_from, append_instructions};
use crate::cuts::count_of;
use crate::script_lines::{Listing, append_header, append_numbered, part_of};
use std::alloc::{AllocError, Global};
use stencil_data::MergedStencil;

/// A place in the listing of a merged stencil.
#[derive(Clone, Copy, Debug)]
pub enum Place {
    /// Before the lines of the script of this number; behind all lines where it is the number of scripts.
    Before {
        number: usize,
    },
    /// In the listing of code, among the lines of the script of this number: before that of the instruction at an offset of its
    /// code, which stands after `turn` others.
    Within {
        number: usize,
        at: usize,
        turn: usize,
    },
}

/// What is listed between two places.
#[derive(Clone, Copy, Debug)]
pub struct Piece {
    pub from: Place,
    pub to: Place,
}

/// Appends the lines of the scripts of these numbers.
fn append_scripts(
    out: &mut Vec<u8>,
    listing: Listing,
    merged: &MergedStencil,
    from: usize,
    to: usize,
) -> Result<(), AllocError>
    requires { (from ≤ to) × (to ≤ script_count merged.now) }
    ensures { OnOk result (out.new.items ++ from_script listing merged.now to ≡ out.old.items ++ from_script listing merged.now from) }
{
    for number in from..to {
        append_numbered(out, listing, merged, number)?;
    }
    Ok(())
}

/// Appends the line of the script of this number, whose code is listed.
fn append_line_of(
    out: &mut Vec<u8>,
    merged: &MergedStencil,
    number: usize,
) -> Result<(), AllocError>
    requires there { number < script_count merged.now }
    requires code { HasCode (part_at merged.now number) 0 }
    ensures { OnOk result (out.new.items ++ from_place Listing.Code merged.now (Place.Within number 0 0)
        ≡ out.old.items ++ from_script Listing.Code merged.now number) }
{
    match part_of(merged, number) {
        Some(script) => {
            append_header(out, &merged.texts, number, script)?;
            Ok(())
        }
        None => unreachable!(),
    }
}

/// Appends the lines of some instructions of the script of this number.
fn append_some(
    out: &mut Vec<u8>,
    merged: &MergedStencil,
    number: usize,
    at: usize,
    turn: usize,
    next: usize,
    end: usize,
) -> Result<(), AllocError>
    requires { Walks (part_at merged.now number) at turn next end }
    ensures { OnOk result (out.new.items ++ from_place Listing.Code merged.now (Place.Within number next end)
        ≡ out.old.items ++ from_place Listing.Code merged.now (Place.Within number at turn)) }
{
    match part_of(merged, number) {
        Some(script) => {
            append_instructions(out, &script.code, &merged.texts, at, turn, end)?;
            Ok(())
        }
        None => unreachable!(),
    }
}

/// Appends what is left of the lines of the script of this number.
fn append_left(
    out: &mut Vec<u8>,
    merged: &MergedStencil,
    number: usize,
    at: usize,
    turn: usize,
) -> Result<(), AllocError>
    requires { HasCode (part_at merged.now number) turn }
    ensures { OnOk result (out.new.items ++ from_script Listing.Code merged.now (number + 1)
        ≡ out.old.items ++ from_place Listing.Code merged.now (Place.Within number at turn)) }
{
    match part_of(merged, number) {
        Some(script) => {
            append_code_from(out, &merged.texts, &script.code, &script.notes, at, turn)?;
            Ok(())
        }
        None => unreachable!(),
    }
}

/// The text of a piece.
pub fn piece_text(
    alloc: Global,
    listing: Listing,
    merged: &MergedStencil,
    piece: Piece,
) -> Result<Vec<u8>, AllocError>
    requires { IsPiece listing merged.now piece.from piece.to }
    ensures { IfOk result (λ text. IsTextOf listing merged.now piece text.items) }
{
    let mut out = Vec::new(alloc);
    match (piece.from, piece.to) {
        (Place::Before { number }, Place::Before { number: end }) => {
            append_scripts(&mut out, listing, merged, number, end)?;
        }
        (Place::Before { number }, Place::Within { .. }) => {
            append_line_of(&mut out, merged, number)?;
        }
        (
            Place::Within { number, at, turn },
            Place::Within {
                number: _,
                at: next,
                turn: end,
            },
        ) => {
            append_some(&mut out, merged, number, at, turn, next, end)?;
        }
        (Place::Within { number, at, turn }, Place::Before { .. }) => {
            append_left(&mut out, merged, number, at, turn)?;
        }
    }
    Ok(out)
}

/// Appends the listing of the code of all scripts of a merged stencil.
pub fn code_text(out: &mut Vec<u8>, merged: &MergedStencil) -> Result<(), AllocError>
    ensures { OnOk result ((named : NamedMerged (List Listed)) → MergedStandsFor ShowsListed merged.now named
        → out.new.items ≡ out.old.items ++ lines.code_text named) }
{
    append_scripts(out, Listing::Code, merged, 0, count_of(merged))?;
    Ok(())
}

/// Appends the listing of the scopes of all scripts of a merged stencil.
pub fn scope_text(out: &mut Vec<u8>, merged: &MergedStencil) -> Result<(), AllocError>
    ensures { OnOk result ((named : NamedMerged (List Listed)) → MergedStandsFor ShowsListed merged.now named
        → out.new.items ≡ out.old.items ++ lines.scope_text named) }
{
    append_scripts(out, Listing::Scopes, merged, 0, count_of(merged))?;
    Ok(())
}
