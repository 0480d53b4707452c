//! The code points of a part of a file, at the places that they have in the file, without those in some holes.

ghost use Rattle.std.specs.Prelude.{◌≡◌, ◌+◌, ◌≤◌, ◌<◌, ◌^◌, ◌++◌, length, map, IfOk, OnOk, All};
ghost use Rattle.std.specs.Str.{IsAscii, IsUtf8, chars};
ghost use Rattle.unit_text.specs.Points.{points, points_from};
ghost use Rattle.scan_skip_laws.specs.Spans.{blank};
ghost use Rattle.parse_function.specs.Holes.{span_at};
ghost use Rattle.parse_function.specs.Shifted.{shifted, FitsShifted};
ghost use Rattle.parse_function.specs.Without.{IsPart, AreParts, points_between, points_without};

use crate::holes::Hole;
use std::alloc::{AllocError, Global};
use stencil_data::Extent;
use unit_text::{DecodeFault, Point, decode, is_ascii};

/// The code points of an extent of a file, with one space in place of what stands in each hole.
pub(crate) fn without(
    alloc: Global,
    file: &[u8],
    extent: Extent,
    holes: &[Hole],
) -> Result<Vec<Point>, AllocError>
    requires size { length file.now ≤ 16777215 }
    requires parts { AreParts file.now extent.start extent.end (map span_at holes.now) }
    ensures { IfOk result (λ made. made.items ≡ points_without file.now extent.start extent.end (map span_at holes.now)) }
{
    let mut points = Vec::new(alloc);
    let mut from = extent.start;
    for hole in holes {
        add_part(alloc, &mut points, file, from, hole.from)?;
        add_blank(&mut points, *hole)?;
        from = hole.to;
    }
    add_part(alloc, &mut points, file, from, extent.end)?;
    Ok(points)
}

// Adds the code points between two offsets of a file.
fn add_part(
    alloc: Global,
    points: &mut Vec<Point>,
    file: &[u8],
    from: u32,
    to: u32,
) -> Result<(), AllocError>
    requires size { length file.now ≤ 16777215 }
    requires part { IsPart file.now from to }
    ensures { OnOk result (points.new.items ≡ points.old.items ++ points_between file.now from to) }
{
    let bytes = &file[from as usize..to as usize];
    if is_ascii(bytes) {
        push_ascii(points, bytes, from)?;
        return Ok(());
    }
    let more = points_in(alloc, bytes, from)?;
    points.extend_from_slice(&more)?;
    Ok(())
}

// Adds the code points of bytes of ASCII, one each, which stand in the file from this offset on. There is room for them at once.
#[tactic(auto, using(crate::proofs::AsciiPoints::ascii_none, crate::proofs::AsciiPoints::ascii_more, crate::proofs::AsciiPoints::ascii_all))]
fn push_ascii(points: &mut Vec<Point>, bytes: &[u8], start: u32) -> Result<(), AllocError>
    requires size { start + length bytes.now ≤ 16777215 }
    requires ascii { IsAscii bytes.now }
    ensures { OnOk result (points.new.items ≡ points.old.items ++ points_from start (chars bytes.now)) }
{
    points.reserve(bytes.len())?;
    for at in 0..bytes.len() {
        let place = start + at as u32;
        points.push_reserved(Point {
            code: char::from(bytes[at]),
            start: place,
            end: place + 1,
        });
    }
    Ok(())
}

// Adds a space that takes all bytes of a hole; none where it has none.
fn add_blank(points: &mut Vec<Point>, hole: Hole) -> Result<(), AllocError>
    ensures { OnOk result (points.new.items ≡ points.old.items ++ blank hole.from hole.to) }
{
    if hole.from < hole.to {
        points.push(Point {
            code: ' ',
            start: hole.from,
            end: hole.to,
        })?;
    }
    Ok(())
}

/// The code points that these bytes spell, which stand in a file from this offset on.
pub(crate) fn points_in(alloc: Global, bytes: &[u8], start: u32) -> Result<Vec<Point>, AllocError>
    requires size { start + length bytes.now ≤ 16777215 }
    requires utf8 { IsUtf8 bytes.now }
    ensures { IfOk result (λ points. points.items ≡ points_from start (chars bytes.now)) }
{
    let mut points = decoded(alloc, bytes)?;
    shift(&mut points, start);
    Ok(points)
}

// The code points of bytes that are UTF-8.
fn decoded(alloc: Global, bytes: &[u8]) -> Result<Vec<Point>, AllocError>
    requires size { length bytes.now ≤ 16777215 }
    requires utf8 { IsUtf8 bytes.now }
    ensures { IfOk result (λ made. made.items ≡ points bytes.now) }
{
    match decode(alloc, bytes) {
        Ok(points) => Ok(points),
        Err(DecodeFault::NoMemory) => Err(AllocError),
        Err(DecodeFault::BadUtf8 { .. }) => unreachable!(),
    }
}

// Sets points further after by n bytes.
fn shift(points: &mut [Point], by: u32)
    requires { FitsShifted by points.old }
    ensures { points.new ≡ map (shifted by) points.old }
{
    for point in points.iter_mut() {
        point.start += by;
        point.end += by;
    }
}
