//! The table of the lines of a text, and the place of an offset.

ghost use Rattle.std.specs.Prelude.{◌≡◌, ℕ, ◌<◌, ◌≤◌, ◌+◌, ◌-◌, ◌*◌, length, IfOk, vec_items};
ghost use Rattle.holzikra_places.specs.Places.{IsIndexOf, IsPlace, IsTableOf, StartsAtZero, StartsPoint, byte_units, ends_line, units_from};

use std::alloc::{AllocError, Global};

/// A place in a text, as editors show it.
#[derive(Debug, Clone, Copy, PartialEq, Eq)]
pub struct Place {
    /// The line, from 1.
    pub line: usize,
    /// 1 and the 16-bit units of UTF-16 in front of the place in its line.
    pub column: usize,
}

/// Where the lines of a text start.
#[derive(Debug, Drop)]
pub struct Lines {
    /// The offsets in bytes, rising; the first one is 0.
    pub starts: Vec<usize>,
}

/// Whether the byte at this offset is the last one of a line terminator sequence (ECMA-262, clause 12.3).
#[tactic(auto, unfolding(crate::specs::Places::ends_line))]
fn ends_line(text: &[u8], at: usize) -> bool
    requires { at < length text.now }
    ensures { result ≡ ends_line text.now at }
{
    match text[at] {
        b'\n' => true,
        b'\r' => at + 1 == text.len() || text[at + 1] != b'\n',
        0xa8 | 0xa9 => at >= 2 && text[at - 1] == 0x80 && text[at - 2] == 0xe2,
        _ => false,
    }
}

/// How many 16-bit units of UTF-16 a byte of UTF-8 brings.
#[tactic(auto, unfolding(crate::specs::Places::byte_units))]
fn byte_units(byte: u8) -> usize
    ensures is { result ≡ byte_units byte }
    ensures small { result ≤ 2 }
{
    match byte {
        0x80..=0xbf => 0,
        0xf0..=0xff => 2,
        _ => 1,
    }
}

/// How many 16-bit units the bytes from `start` up to `end` bring.
pub(crate) fn units_between(text: &[u8], start: usize, end: usize) -> usize
    requires ordered { start ≤ end }
    requires within { end ≤ length text.now }
    ensures is { result ≡ units_from text.now start (end - start) }
    ensures small { result ≤ 2 * (end - start) }
{
    let mut units = 0;
    for at in start..end {
        units += byte_units(text[at]);
    }
    units
}

impl Lines {
    /// The lines of this text. Takes time in proportion to its bytes, and a word of memory for each line.
    pub fn of(alloc: Global, text: &[u8]) -> Result<Lines, AllocError>
        ensures { IfOk result (λ lines. IsTableOf text.now lines.starts.items) }
    {
        let mut starts = Vec::new(alloc);
        starts.push(0)?;
        for at in 0..text.len() {
            if ends_line(text, at) {
                starts.push(at + 1)?;
            }
        }
        Ok(Lines { starts })
    }

    /// The number of the line, from 0, that this offset lies in.
    pub(crate) fn index_of(&self, offset: usize) -> usize
        requires { StartsAtZero self.now.starts.items }
        ensures { IsIndexOf self.now.starts.items offset result }
    {
        let mut low = 0;
        let mut high = self.starts.len();
        while high - low > 1 {
            let middle = low + (high - low) / 2;
            if self.starts[middle] <= offset {
                low = middle;
            } else {
                high = middle;
            }
        }
        low
    }

    /// The place of an offset of this text. Takes time in proportion to the logarithm of the lines, and to the bytes of the line.
    pub fn place_of(&self, text: &[u8], offset: usize) -> Place
        requires table { IsTableOf text.now self.now.starts.items }
        requires within { offset ≤ length text.now }
        ensures place { IsPlace text.now offset result.line result.column }

        // No other code point starts there.
        ensures only { (other : ℕ) → other ≤ length text.now → StartsPoint text.now offset → StartsPoint text.now other
            → IsPlace text.now other result.line result.column → other ≡ offset }
    {
        let index = self.index_of(offset);
        let start = self.starts[index];
        Place {
            line: index + 1,
            column: units_between(text, start, offset) + 1,
        }
    }
}
