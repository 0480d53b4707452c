//! The source text of a script, for what is told of places in it.

ghost use Rattle.std.specs.Prelude.{◌≡◌, IfOk, Some};
ghost use Rattle.holzikra_scripts.specs.Notes.{IsSpotIn, source_of};

use holzikra_names::{Source, Spot};
use holzikra_places::TextPlaces;
use std::alloc::{AllocError, Global};

/// How many bytes of a line are handed out at most. The front of a line that is shown has 100 characters of at most four bytes.
const MOST_OF_LINE: usize = 404;

/// A source text, and the places in it.
#[derive(Drop)]
pub struct SourceText<'a> {
    places: TextPlaces<'a>,
}

/// The source text of a script where it is at hand, as it is not of an image.
#[derive(Drop)]
pub(crate) struct KnownText<'a> {
    pub(crate) text: Option<SourceText<'a>>,
}

/// A line without its end (ECMA-262, clause 12.3).
fn without_end(line: &[u8]) -> &[u8] {
    match line {
        [front @ .., b'\r', b'\n'] => front,
        [front @ .., b'\n' | b'\r'] => front,
        [front @ .., 0xe2, 0x80, 0xa8 | 0xa9] => front,
        _ => line,
    }
}

/// The front of a line, which ends with a character.
fn front_of(line: &[u8]) -> &[u8] {
    let mut end = line.len().min(MOST_OF_LINE);
    for _ in 0..3 {
        match line.get(end) {
            Some(0x80..=0xbf) => end = end.saturating_sub(1),
            _ => break,
        }
    }
    line.get(..end).unwrap_or(line)
}

/// How many 16-bit units of UTF-16 a byte of UTF-8 brings.
fn units_of(byte: u8) -> usize {
    match byte {
        0x80..=0xbf => 0,
        0xf0..=0xff => 2,
        _ => 1,
    }
}

impl<'a> SourceText<'a> {
    /// A source text, of which the lines are looked for. Takes time in proportion to its bytes; a place then takes as much at most as
    /// some thousand bytes.
    pub fn of(alloc: Global, text: &'a [u8]) -> Result<SourceText<'a>, AllocError>
        ensures { IfOk result (λ source. source.places.text.now ≡ text.now) }
    {
        let places = TextPlaces::of(alloc, text)?;
        Ok(SourceText { places })
    }

    /// The line and the column of an offset; none where the text has no such offset.
    pub(crate) fn spot_of(&self, offset: u32) -> Option<Spot>
        ensures { IsSpotIn (Some self.now.places.text.now) offset result }
    {
        match self.places.place_of(offset as usize) {
            None => None,
            Some(place) => Some(Spot {
                line: place.line,
                column: place.column,
            }),
        }
    }

    /// The line of this number, from 1, with its end, and where it starts.
    fn line(&self, number: usize) -> Option<(usize, &'a [u8])> {
        let index = number.checked_sub(1)?;
        let starts = &self.places.lines.starts;
        let start = starts.get(index).copied()?;
        let end = starts.get(number).copied();
        let text = self.places.text;
        let line = text.get(start..end.unwrap_or(text.len()))?;
        Some((start, line))
    }

    /// The offset of a place, a line and a column of it in 16-bit units of UTF-16, each from 1; none where the text has no such line.
    /// A column behind the end of its line is taken for that end.
    pub(crate) fn offset_at(&self, line: u32, column: u32) -> Option<usize> {
        let (start, line) = self.line(line as usize)?;
        let mut left = (column as usize).saturating_sub(1);
        let mut offset = start;
        for byte in without_end(line) {
            let units = units_of(*byte);
            if left < units {
                break;
            }
            left -= units;
            offset = offset.saturating_add(1);
        }
        Some(offset)
    }
}

impl<'a> Source for SourceText<'a> {
    fn spot(&self, offset: u32) -> Option<Spot> {
        self.spot_of(offset)
    }

    fn line_of(&self, offset: u32) -> Option<&[u8]> {
        let spot = self.spot(offset)?;
        let (_, line) = self.line(spot.line)?;
        Some(front_of(without_end(line)))
    }
}

impl<'a> KnownText<'a> {
    /// This text.
    pub(crate) fn of(alloc: Global, text: &'a [u8]) -> Result<KnownText<'a>, AllocError>
        ensures { IfOk result (λ known. source_of known ≡ Some text.now) }
    {
        let source = SourceText::of(alloc, text)?;
        Ok(KnownText { text: Some(source) })
    }

    /// The line and the column of an offset, where the text is at hand and has that offset.
    pub(crate) fn spot_of(&self, offset: u32) -> Option<Spot>
        ensures { IsSpotIn (source_of self.now) offset result }
    {
        match &self.text {
            None => None,
            Some(text) => text.spot_of(offset),
        }
    }
}

impl<'a> Source for KnownText<'a> {
    fn spot(&self, offset: u32) -> Option<Spot> {
        self.spot_of(offset)
    }

    fn line_of(&self, offset: u32) -> Option<&[u8]> {
        match &self.text {
            None => None,
            Some(text) => text.line_of(offset),
        }
    }
}
