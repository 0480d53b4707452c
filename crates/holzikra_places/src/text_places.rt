//! Places in a text, of which the lines may be long.

ghost use Rattle.std.specs.Prelude.{◌≡◌, ◌<◌, ◌≤◌, ◌*◌, ◌^◌, length, IfOk};
ghost use Rattle.holzikra_places.specs.Places.{AreMarksOf, IsPlaceIn, IsTableOf, units_from};

use crate::lines::{Lines, Place, units_between};
use std::alloc::{AllocError, Global};

/// How many bytes of the text stand between two marks.
const STRIDE: usize = 1024;

/// A text, the table of its lines, and marks by which a column is found in a long line.
#[derive(Drop)]
pub struct TextPlaces<'a> {
    pub text: &'a [u8],
    pub lines: Lines,
    /// How many 16-bit units of UTF-16 stand in front of the first byte, of that after `STRIDE` bytes, and so on.
    pub marks: Vec<usize>,
    ghost table: { IsTableOf text.now lines.starts.items },
    ghost marked: { AreMarksOf text.now marks.items },
}

/// The marks of a text.
fn marks_of(alloc: Global, text: &[u8]) -> Result<Vec<usize>, AllocError>
    ensures { IfOk result (λ marks. AreMarksOf text.now marks.items) }
{
    let mut marks = Vec::new(alloc);
    let mut units = 0;
    for piece in 0..text.len() / STRIDE {
        marks.push(units)?;
        units += units_between(text, piece * STRIDE, (piece + 1) * STRIDE);
    }
    marks.push(units)?;
    Ok(marks)
}

/// How many 16-bit units stand in front of an offset of a text with these marks.
fn units_before(text: &[u8], marks: &[usize], offset: usize) -> usize
    requires marked { AreMarksOf text.now marks.now }
    requires within { offset ≤ length text.now }
    requires short { offset < 2 ^ 63 }
    ensures is { result ≡ units_from text.now 0 offset }
    ensures small { result ≤ 2 * offset }
{
    let piece = offset / STRIDE;
    let mark = marks[piece];
    mark + units_between(text, piece * STRIDE, offset)
}

impl<'a> TextPlaces<'a> {
    /// A text, of which the lines are looked for. Takes time in proportion to its bytes, and a word of memory for each line.
    pub fn of(alloc: Global, text: &'a [u8]) -> Result<TextPlaces<'a>, AllocError>
        ensures { IfOk result (λ places. places.text.now ≡ text.now) }
    {
        let lines = Lines::of(alloc, text)?;
        let marks = marks_of(alloc, text)?;
        Ok(TextPlaces { text, lines, marks })
    }

    /// The place of an offset; none where it lies behind the end of the text. Takes time in proportion to the logarithm of the lines, and to
    /// some thousand bytes at most.
    pub fn place_of(&self, offset: usize) -> Option<Place>
        ensures { IsPlaceIn self.now.text.now offset result }
    {
        if offset > self.text.len() {
            return None;
        }
        let index = self.lines.index_of(offset);
        let start = self.lines.starts[index];
        let in_front = units_before(self.text, &self.marks, start);
        let units = units_before(self.text, &self.marks, offset) - in_front;
        Some(Place {
            line: index + 1,
            column: units + 1,
        })
    }
}
