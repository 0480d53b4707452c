//! The line of a place, as it is shown to a person.

use crate::shown::{push_shown, shown_width};
use bstr::{decode_last_utf8, decode_utf8};
use std::alloc::{AllocError, Global};

/// The line of a place.
#[derive(Debug, Drop)]
pub struct Excerpt {
    /// The line, or what is shown of it.
    pub shown: String,
    /// How many columns of `shown` stand in front of the place.
    pub caret: usize,
}

/// A line is shown whole up to so many columns.
const WIDEST: usize = 100;

/// Of a wider one so many are shown.
const CUT: usize = 80;

/// The most characters that are looked at on each side of the place, whatever their width.
const MOST: usize = 400;

/// What is shown of a line on one side of a place.
#[derive(Drop)]
struct Side {
    /// From the place on outwards.
    chars: Vec<char>,
    width: usize,
    /// Whether the line has no more of them.
    whole: bool,
}

fn ends_line(c: char) -> bool {
    matches!(c, '\n' | '\r' | '\u{2028}' | '\u{2029}')
}

impl Side {
    fn new(alloc: Global) -> Side {
        Side {
            chars: Vec::new(alloc),
            width: 0,
            whole: false,
        }
    }

    /// Takes one more character, if the line has it and it has room. Whether it did.
    fn take(&mut self, c: Option<char>, size: usize, room: usize) -> Result<bool, AllocError> {
        let c = c.unwrap_or('\u{fffd}');
        if size == 0 || ends_line(c) {
            self.whole = true;
            return Ok(false);
        }
        let width = self.width.saturating_add(shown_width(c));
        if width > room || self.chars.len() >= MOST {
            return Ok(false);
        }
        self.chars.push(c)?;
        self.width = width;
        Ok(true)
    }
}

/// The characters in front of a place, the last one first.
fn in_front(alloc: Global, front: &[u8], room: usize) -> Result<Side, AllocError> {
    let mut side = Side::new(alloc);
    let mut rest = front;
    for _ in 0..MOST + 1 {
        let (c, size) = decode_last_utf8(rest);
        if !side.take(c, size, room)? {
            break;
        }
        rest = rest.get(..rest.len().saturating_sub(size)).unwrap_or(&[]);
    }
    Ok(side)
}

/// The characters behind a place.
fn behind(alloc: Global, back: &[u8], room: usize) -> Result<Side, AllocError> {
    let mut side = Side::new(alloc);
    let mut rest = back;
    for _ in 0..MOST + 1 {
        let (c, size) = decode_utf8(rest);
        if !side.take(c, size, room)? {
            break;
        }
        rest = rest.get(size..).unwrap_or(&[]);
    }
    Ok(side)
}

/// Puts the two sides of a place together, with `…` where the line goes on.
fn joined(alloc: Global, front: &Side, back: &Side) -> Result<Excerpt, AllocError> {
    let mut shown = String::new(alloc);
    let mut caret = front.width;
    if !front.whole {
        shown.push('…')?;
        caret = caret.saturating_add(1);
    }
    for c in front.chars.iter().rev() {
        push_shown(&mut shown, *c)?;
    }
    for c in &back.chars {
        push_shown(&mut shown, *c)?;
    }
    if !back.whole {
        shown.push('…')?;
    }
    Ok(Excerpt { shown, caret })
}

/// The line of the text that this offset lies in. One that is wider than 100 columns is shown as about 80 columns around the place.
/// Takes time for the characters that are shown, and not for the line.
pub fn excerpt_at(alloc: Global, text: &[u8], offset: usize) -> Result<Excerpt, AllocError> {
    let (front, back) = text.split_at(offset.min(text.len()));
    let before = in_front(alloc, front, WIDEST)?;
    let after = behind(alloc, back, WIDEST)?;
    if before.whole && after.whole && before.width.saturating_add(after.width) <= WIDEST {
        return joined(alloc, &before, &after);
    }
    let half = CUT / 2;
    let room_before = CUT - after.width.min(half);
    let room_after = CUT - before.width.min(half);
    let before = in_front(alloc, front, room_before)?;
    let after = behind(alloc, back, room_after)?;
    joined(alloc, &before, &after)
}
