//! The lines of a plain listing.

use memchr::memchr;

/// What is left of a plain listing.
#[derive(Clone, Copy)]
pub(crate) struct Plain<'a> {
    rest: &'a [u8],
}

impl<'a> Plain<'a> {
    pub(crate) fn of(text: &'a [u8]) -> Plain<'a> {
        Plain { rest: text }
    }

    /// The next line without its end, and what is left behind it.
    pub(crate) fn split_line(self) -> (&'a [u8], Plain<'a>) {
        match split_around(self.rest, b'\n') {
            None => (self.rest, Plain { rest: &[] }),
            Some((line, rest)) => (line, Plain { rest }),
        }
    }
}

/// What stands in front of the first byte of this value, and what stands behind it.
fn split_around(text: &[u8], byte: u8) -> Option<(&[u8], &[u8])> {
    let place = memchr(byte, text)?;
    let front = text.get(..place)?;
    let behind = text.get(place.saturating_add(1)..)?;
    Some((front, behind))
}

/// The line of an instruction without its offset: from the name of its opcode on.
pub(crate) fn from_name(line: &[u8]) -> &[u8] {
    match line.iter().position(|byte| byte.is_ascii_alphabetic()) {
        None => &[],
        Some(start) => line.get(start..).unwrap_or(line),
    }
}

/// The name of the opcode at the start of such a line.
pub(crate) fn name_alone(named: &[u8]) -> &[u8] {
    match split_around(named, b' ') {
        None => named,
        Some((name, _)) => name,
    }
}
