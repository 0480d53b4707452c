//! The tokens of a part of a file, without those in some holes.

ghost use Rattle.std.specs.Prelude.{◌≡◌, ◌+◌, ◌-◌, ◌≤◌, ◌<◌, ◌^◌, length, map, take, drop, IfOk, OnOk};
ghost use Rattle.script_scanner.specs.Order.{AreInOrder};
ghost use Rattle.script_scanner.specs.Stands.{StandFor, HasOneLast, GainsOnly, Keeps};
ghost use Rattle.script_scanner.specs.Tokens.{tokens};
ghost use Rattle.parse_function.specs.Holes.{span_at};
ghost use Rattle.parse_function.specs.Left.{points_left};
ghost use Rattle.parse_function.specs.Without.{AreParts};

use crate::glued::{glued_bytes, move_tokens};
use crate::holes::Hole;
use crate::points::without;
use parser_atoms::Atoms;
use script_grammar::compact::CompactToken;
use script_scanner::{scan, scan_ascii};
use std::alloc::{AllocError, Global};
use stencil_data::Extent;
use unit_text::is_ascii;

/// The tokens of an extent of a file, with one space in place of what stands in each hole. Where what is left is of ASCII alone, as of
/// most functions, it is read without a list of its points: as it stands in the file where there is no hole, else put together.
pub(crate) fn tokens_without(
    alloc: Global,
    file: &[u8],
    extent: Extent,
    holes: &[Hole],
    atoms: &mut Atoms,
) -> Result<Vec<CompactToken>, AllocError>
    requires size { length file.now ≤ 16777215 }
    requires parts { AreParts file.now extent.start extent.end (map span_at holes.now) }
    requires in_order { AreInOrder (points_left file.now extent holes.now) }
    requires few { length (points_left file.now extent holes.now) + length atoms.old < 2 ^ 32 - 1 }
    requires room { extent.end - extent.start + length atoms.old < 2 ^ 32 - 1 }
    ensures tokens { IfOk result (λ made. StandFor atoms.new made.items (tokens (points_left file.now extent holes.now) extent.start extent.end)) }
    ensures last { IfOk result (λ made. HasOneLast made.items) }
    ensures gains { OnOk result (GainsOnly atoms.old atoms.new (tokens (points_left file.now extent holes.now) extent.start extent.end)) }
    ensures keeps { OnOk result (Keeps atoms.old atoms.new) }
{
    if holes.is_empty() {
        let bytes = part_of(file, extent);
        if is_ascii(bytes) {
            let tokens = scan_ascii(alloc, bytes, extent.start, atoms)?;
            return Ok(tokens);
        }
    } else {
        let bytes = glued_bytes(alloc, file, extent, holes)?;
        if is_ascii(&bytes) {
            let mut tokens = scan_ascii(alloc, &bytes, extent.start, atoms)?;
            move_tokens(&mut tokens, extent.start, holes);
            return Ok(tokens);
        }
    }
    let points = without(alloc, file, extent, holes)?;
    let tokens = scan(alloc, &points, extent.start, extent.end, atoms)?;
    Ok(tokens)
}

// The bytes of an extent of a file.
fn part_of(file: &[u8], extent: Extent) -> &[u8]
    requires order { extent.start ≤ extent.end }
    requires within { extent.end ≤ length file.now }
    ensures value { result.now ≡ take (extent.end - extent.start) (drop extent.start file.now) }
    ensures count { extent.start + length result.now ≡ extent.end }
{
    &file[extent.start as usize..extent.end as usize]
}
