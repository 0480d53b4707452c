//! Answers in colours.

ghost use Rattle.std.specs.Prelude.{◌≡◌, IfOk, false};
ghost use Rattle.holzikra_colours.specs.Colours.{has_escape, without_colours};

use crate::paint::painted;
use crate::part::{
    Part, code_part, difference_part, image_part, listing_part, refusal_part, table_part, tree_part,
};
use std::alloc::{AllocError, Global};

/// What is printed.
#[derive(Debug, Clone, Copy, PartialEq, Eq)]
pub enum Answer {
    /// Why texts are refused.
    Refusals,
    /// A listing of code, with notes.
    Listing,
    /// A tree of scopes.
    Tree,
    /// A table of counts.
    Table,
    /// How the code of two scripts differs.
    Difference,
    /// Whether images are sound.
    Images,
    /// What codes mean.
    Codes,
}

/// The control character that begins a colour sequence.
const ESCAPE: u8 = 27;

/// The part of a line that is shown in another way, if one is. The line begins at this byte of the answer.
fn part_of(answer: Answer, line: &[u8], start: usize) -> Option<Part> {
    match answer {
        Answer::Refusals => refusal_part(line),
        Answer::Listing => listing_part(line),
        Answer::Tree => tree_part(line),
        Answer::Table => table_part(line, start),
        Answer::Difference => difference_part(line),
        Answer::Images => image_part(line),
        Answer::Codes => code_part(line),
    }
}

/// The parts of all lines.
fn parts_of(alloc: Global, answer: Answer, text: &[u8]) -> Result<Vec<Part>, AllocError> {
    let mut parts = Vec::new(alloc);
    let mut start = 0;
    for (end, byte) in text.iter().enumerate() {
        if *byte == b'\n' {
            if let Some(line) = text.get(start..end) {
                if let Some(part) = part_of(answer, line, start) {
                    parts.push(part.behind(start))?;
                }
            }
            start = end.saturating_add(1);
        }
    }
    Ok(parts)
}

/// An answer in colours. One that has escapes of its own is left as it is.
pub fn coloured(alloc: Global, answer: Answer, text: &[u8]) -> Result<Vec<u8>, AllocError>
    ensures plain { IfOk result (λ out. has_escape text.now ≡ false → without_colours out.items ≡ text.now) }
    ensures same { IfOk result (λ out. without_colours out.items ≡ without_colours text.now) }
{
    if text.contains(&ESCAPE) {
        return Vec::from_slice(alloc, text);
    }
    let parts = parts_of(alloc, answer, text)?;
    let out = painted(alloc, text, &parts)?;
    Ok(out)
}
