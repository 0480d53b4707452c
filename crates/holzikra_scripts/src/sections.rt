//! Some scripts of a listing.

use holzikra_finding::Shown;
use std::alloc::{AllocError, Global};

/// What is taken of a listing.
#[derive(Drop)]
pub(crate) struct Sections {
    pub(crate) text: Vec<u8>,
    /// How many scripts it has whole.
    pub(crate) count: usize,
}

/// The lines of a listing from its first one on that starts a script.
#[derive(Drop)]
struct Taking<'a> {
    /// What is taken of each script, in order of number.
    shown: &'a [Shown],
    /// How many scripts have begun.
    begun: usize,
    /// What is taken of the script at hand.
    takes: Shown,
    out: Sections,
}

impl<'a> Taking<'a> {
    /// Looks at the next line, with its end.
    fn line(&mut self, line: &[u8]) -> Result<(), AllocError> {
        if line.starts_with(b"script ") {
            self.begin(line)?;
        } else if self.takes == Shown::Whole {
            self.out.text.extend_from_slice(line)?;
        }
        Ok(())
    }

    /// Looks at the line that starts a script.
    fn begin(&mut self, line: &[u8]) -> Result<(), AllocError> {
        self.takes = self.shown.get(self.begun).copied().unwrap_or(Shown::Hidden);
        self.begun = self.begun.saturating_add(1);
        match self.takes {
            Shown::Hidden => (),
            Shown::Folded => {
                self.out.text.extend_from_slice(line)?;
                self.out.text.extend_from_slice(b"# folded\n")?;
            }
            Shown::Whole => {
                self.out.count = self.out.count.saturating_add(1);
                self.out.text.extend_from_slice(line)?;
            }
        }
        Ok(())
    }
}

/// The lines of a listing that are taken where so much is shown of each script.
pub(crate) fn chosen_sections(
    alloc: Global,
    listing: &[u8],
    shown: &[Shown],
) -> Result<Sections, AllocError> {
    let mut taking = Taking {
        shown,
        begun: 0,
        takes: Shown::Hidden,
        out: Sections {
            text: Vec::new(alloc),
            count: 0,
        },
    };
    for line in listing.split_inclusive(|byte| *byte == b'\n') {
        taking.line(line)?;
    }
    let Taking { out, .. } = taking;
    Ok(out)
}
