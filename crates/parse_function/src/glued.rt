//! The bytes of a function without those in its holes, put together, and where they stand in the file.
//!
//! Where these bytes are of ASCII alone they are scanned as they are, with no list of their points; the offsets of the tokens are
//! then replaced by those of the file, in one pass over the tokens and the holes.

ghost use Rattle.std.specs.Prelude.{◌≡◌, ℕ, ◌+◌, ◌≤◌, ◌<◌, ◌^◌, ◌++◌, length, map, IfOk, OnOk};
ghost use Rattle.parse_function.specs.Glued.{AreApart, FitMoved, Follows, IsStretch, behind_span, blank_byte, bytes_without, limit_of, moved, stands_at};
ghost use Rattle.parse_function.specs.Holes.{span_at};
ghost use Rattle.parse_function.specs.Without.{AreParts};

use crate::holes::Hole;
use script_grammar::compact::{CompactToken, Offset, TokenValue};
use std::alloc::{AllocError, Global};
use stencil_data::Extent;

/// A stretch of the bytes that stands in the file as it does among them.
#[derive(Clone, Copy)]
struct Stretch<'a> {
    /// The offset at which it begins among the bytes, of which the first has the function's.
    glued: u32,
    /// The offset among them at which the next stretch begins, behind the space in place of the next hole.
    limit: u32,
    /// How much further after it stands in the file.
    by: u32,
    /// The holes behind it.
    holes: &'a [Hole],
}

/// The bytes of an extent of a file, with one space in place of what stands in each hole.
pub(crate) fn glued_bytes(
    alloc: Global,
    file: &[u8],
    extent: Extent,
    holes: &[Hole],
) -> Result<Vec<u8>, AllocError>
    requires size { length file.now ≤ 16777215 }
    requires parts { AreParts file.now extent.start extent.end (map span_at holes.now) }
    ensures { IfOk result (λ made. made.items ≡ bytes_without file.now extent.start extent.end (map span_at holes.now)) }
{
    let mut bytes = Vec::new(alloc);
    let mut from = extent.start;
    for hole in holes {
        bytes.extend_from_slice(&file[from as usize..hole.from as usize])?;
        push_blank(&mut bytes, *hole)?;
        from = hole.to;
    }
    bytes.extend_from_slice(&file[from as usize..extent.end as usize])?;
    Ok(bytes)
}

// Adds a space in place of the bytes of a hole; none where it has none.
fn push_blank(bytes: &mut Vec<u8>, hole: Hole) -> Result<(), AllocError>
    ensures { OnOk result (bytes.new.items ≡ bytes.old.items ++ blank_byte hole.from hole.to) }
{
    if hole.from < hole.to {
        bytes.push(b' ')?;
    }
    Ok(())
}

/// Gives each token the offsets that it has in the file, where it has those among the bytes without holes.
pub(crate) fn move_tokens(tokens: &mut [CompactToken], from: u32, holes: &[Hole])
    requires apart { AreApart from (map span_at holes.now) }
    requires fits { FitMoved (stands_at from from (map span_at holes.now)) from tokens.old }
    ensures { tokens.new ≡ map (moved (stands_at from from (map span_at holes.now))) tokens.old }
{
    let first = stretch_from(from, from, holes);
    let mut stretch = first;
    for token in tokens.iter_mut() {
        let start = token.start();
        let opening = stretch_at(first, stretch, start);
        let end = token.end();
        let closing = stretch_at(first, opening, end);
        *token = with_offsets(
            *token,
            Offset::new(start + opening.by),
            Offset::new(end + closing.by),
        );
        stretch = closing;
    }
}

// A token with other offsets.
fn with_offsets(token: CompactToken, start: Offset, end: Offset) -> CompactToken
    ensures { result ≡ record { kind = token.kind; after_line = token.after_line; value = token.value; start = start; end = end } }
{
    let read = token.get();
    let value = TokenValue::new(read.value);
    CompactToken::new(read.kind, read.after_line, value, start, end)
}

// The stretch in which an offset among the bytes lies: mostly it is the last one.
fn stretch_at<'a>(first: Stretch<'a>, last: Stretch<'a>, offset: u32) -> Stretch<'a>
    requires first { IsStretch first.glued first.limit first.by (map span_at first.holes.now) }
    requires last { IsStretch last.glued last.limit last.by (map span_at last.holes.now) }
    requires behind { first.glued ≤ offset }
    ensures is { IsStretch result.glued result.limit result.by (map span_at result.holes.now) }
    ensures follows { (place : ℕ → ℕ) → Follows place first.entry.glued first.entry.by (map span_at first.entry.holes.now)
        → Follows place last.entry.glued last.entry.by (map span_at last.entry.holes.now)
        → Follows place result.glued result.by (map span_at result.holes.now) × (place offset ≡ offset + result.by) }
{
    if last.glued <= offset && offset < last.limit {
        return last;
    }
    let start = if last.glued <= offset { last } else { first };
    stretch_behind(start, offset)
}

// The stretch in which an offset among the bytes lies, from one on that begins not after it.
fn stretch_behind<'a>(start: Stretch<'a>, offset: u32) -> Stretch<'a>
    requires start { IsStretch start.glued start.limit start.by (map span_at start.holes.now) }
    requires behind { start.glued ≤ offset }
    ensures is { IsStretch result.glued result.limit result.by (map span_at result.holes.now) }
    ensures follows { (place : ℕ → ℕ) → Follows place start.entry.glued start.entry.by (map span_at start.entry.holes.now)
        → Follows place result.glued result.by (map span_at result.holes.now) × (place offset ≡ offset + result.by) }
{
    let mut stretch = start;
    while stretch.limit <= offset {
        match stretch.holes.split_first() {
            None => return stretch,
            Some((hole, others)) => {
                stretch = stretch_from(stretch.limit, hole.to, others);
            }
        }
    }
    stretch
}

// The stretch that begins at an offset among the bytes and another in the file, in front of holes.
fn stretch_from(glued: u32, file: u32, holes: &[Hole]) -> Stretch<'_>
    requires apart { AreApart file (map span_at holes.now) }
    requires below { glued ≤ file }
    ensures is { IsStretch result.glued result.limit result.by (map span_at result.holes.now) }
    ensures glued { result.glued ≡ glued }
    ensures file { result.glued + result.by ≡ file }
    ensures holes { result.holes.now ≡ holes.now }
{
    let limit = limit_before(glued, file, holes);
    Stretch {
        glued,
        limit,
        by: file - glued,
        holes,
    }
}

// Where a stretch ends among the bytes, that begins at an offset among them and another in the file, in front of holes.
fn limit_before(glued: u32, file: u32, holes: &[Hole]) -> u32
    requires apart { AreApart file (map span_at holes.now) }
    requires below { glued ≤ file }
    ensures { result ≡ limit_of glued file (map span_at holes.now) }
{
    match holes.split_first() {
        Some((hole, _)) => behind_hole(glued, file, *hole),
        None => u32::MAX,
    }
}

// Where the bytes behind a hole begin, if those in front of it begin at one offset among the bytes and at another in the file.
fn behind_hole(glued: u32, file: u32, hole: Hole) -> u32
    requires order { file ≤ hole.from }
    requires span { hole.from ≤ hole.to }
    requires below { glued ≤ file }
    requires size { hole.from ≤ 16777215 }
    ensures value { result ≡ behind_span glued file (span_at hole) }
{
    let blank = glued + (hole.from - file);
    if hole.from < hole.to {
        blank + 1
    } else {
        blank
    }
}
