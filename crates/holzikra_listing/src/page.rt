//! The page on which a listing is put together from the lines of the plain one.

use std::alloc::{AllocError, Global};

/// How many columns there are at least in front of a note, so that most notes of a listing stand below each other.
const NOTE_COLUMN: usize = 41;

/// The lines of a plain listing, as far as they are on the page.
#[derive(Drop)]
pub(crate) struct Page<'a> {
    plain: &'a [u8],
    at: usize,
    out: Vec<u8>,
}

impl<'a> Page<'a> {
    pub(crate) fn new(alloc: Global, plain: &'a [u8]) -> Page<'a> {
        Page {
            plain,
            at: 0,
            out: Vec::new(alloc),
        }
    }

    /// The end of the line that comes next, without its line feed.
    fn line_end(&self) -> usize {
        for at in self.at..self.plain.len() {
            if self.plain[at] == b'\n' {
                return at;
            }
        }
        self.plain.len()
    }

    /// Puts the next line of the plain listing on the page, and behind it a note unless that is empty.
    pub(crate) fn line(&mut self, note: &[u8]) -> Result<(), AllocError> {
        let end = self.line_end();
        if let Some(line) = self.plain.get(self.at..end) {
            self.out.extend_from_slice(line)?;
            if !note.is_empty() {
                self.pad(line.len())?;
                self.out.extend_from_slice(b" ; ")?;
                self.out.extend_from_slice(note)?;
            }
            self.out.extend_from_slice(b"\n")?;
        }
        self.at = end.saturating_add(1);
        Ok(())
    }

    /// Blanks behind a line of this length, one at least.
    fn pad(&mut self, length: usize) -> Result<(), AllocError> {
        self.out.push(b' ')?;
        for _ in length..NOTE_COLUMN.saturating_sub(2) {
            self.out.push(b' ')?;
        }
        Ok(())
    }

    /// Adds a line, which begins with `# `.
    pub(crate) fn added(&mut self, line: &[u8]) -> Result<(), AllocError> {
        self.out.extend_from_slice(b"# ")?;
        self.out.extend_from_slice(line)?;
        self.out.extend_from_slice(b"\n")?;
        Ok(())
    }

    /// The page, with what is left of the plain listing.
    pub(crate) fn finish(mut self) -> Result<Vec<u8>, AllocError> {
        if let Some(rest) = self.plain.get(self.at..) {
            self.out.extend_from_slice(rest)?;
        }
        let Page {
            plain: _,
            at: _,
            out,
        } = self;
        Ok(out)
    }
}
