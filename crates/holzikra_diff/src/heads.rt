//! How a function is called at the head of its changes.

use holzikra_names::{append_chars, kind_words, text_at};
use script_image::append_decimal;
use std::alloc::{AllocError, Global};
use stencil_data::MergedStencil;

/// How many functions of a chain are shown, the innermost ones.
const MOST_FUNCTIONS: usize = 8;

/// How many characters of a name are shown.
const MOST_CHARACTERS: usize = 60;

/// A script, and for each of its functions the number of the one around it.
#[derive(Clone, Copy)]
pub(crate) struct Functions<'a> {
    pub merged: &'a MergedStencil,
    pub around: &'a [u32],
}

/// Appends the characters at the front of a text.
fn append_front(alloc: Global, out: &mut Vec<u8>, units: &[u16]) -> Result<(), AllocError> {
    let front = units
        .get(..MOST_CHARACTERS.saturating_mul(2))
        .unwrap_or(units);
    let text = String::from_utf16_lossy(alloc, front)?;
    append_chars(out, text.as_str(), MOST_CHARACTERS)
}

impl Functions<'_> {
    /// Appends `function`, its number, and its name or how it is written.
    fn append_one(self, alloc: Global, out: &mut Vec<u8>, number: u32) -> Result<(), AllocError> {
        out.extend_from_slice(b"function ")?;
        append_decimal(out, u64::from(number))?;
        let merged = self.merged;
        let Some(lazy) = merged.records.get(number.saturating_sub(1) as usize) else {
            return Ok(());
        };
        match lazy.name {
            Some(atom) => {
                out.extend_from_slice(b" ")?;
                append_front(alloc, out, text_at(&merged.texts, atom))
            }
            None => {
                out.extend_from_slice(b" (")?;
                out.extend_from_slice(kind_words(lazy.kind).as_bytes())?;
                out.extend_from_slice(b")")?;
                Ok(())
            }
        }
    }

    /// The function of this number and those around it, the innermost ones first, and the one around these.
    fn chain(self, alloc: Global, number: u32) -> Result<(Vec<u32>, u32), AllocError> {
        let mut chain = Vec::new(alloc);
        let mut at = number;
        for _ in 0..MOST_FUNCTIONS {
            if at == 0 {
                break;
            }
            chain.push(at)?;
            at = self.around.get(at as usize).copied().unwrap_or(0);
        }
        Ok((chain, at))
    }

    /// Appends how a function is called: the chain of the functions from the outermost one to itself, or `script`.
    pub(crate) fn append_chain(
        self,
        alloc: Global,
        out: &mut Vec<u8>,
        number: u32,
    ) -> Result<(), AllocError> {
        if number == 0 {
            out.extend_from_slice(b"script")?;
            return Ok(());
        }
        let (chain, outside) = self.chain(alloc, number)?;
        let mut first = outside == 0;
        if !first {
            out.extend_from_slice(b"..")?;
        }
        for function in chain.iter().rev() {
            if !first {
                out.extend_from_slice(b" > ")?;
            }
            first = false;
            self.append_one(alloc, out, *function)?;
        }
        Ok(())
    }
}
