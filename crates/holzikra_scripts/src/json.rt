//! The line of JSON of a script.

ghost use Rattle.std.specs.Prelude.{None, Some, length, IfOk};
ghost use Rattle.script_image.specs.declared.script_lines.Listing.TheVariants as of;
ghost use Rattle.holzikra_scripts.specs.Notes.{source_of};
ghost use Rattle.holzikra_scripts.specs.Written.{IsJson};

use crate::notes::script_notes;
use crate::source::KnownText;
use holzikra_objects::script_line;
use script_image::Listing;
use std::alloc::{AllocError, Global};
use stencil_data::MergedStencil;

/// The object of a file of so many bytes, and what is said beside the stencil by its source text, where that is at hand.
fn json_by(
    alloc: Global,
    listing: Listing,
    name: &str,
    bytes: usize,
    source: &KnownText<'_>,
    stencil: &MergedStencil,
) -> Result<Vec<u8>, AllocError>
    ensures { IfOk result (λ out. IsJson listing name.now bytes (source_of source.now) stencil.now out.items) }
{
    let notes = script_notes(alloc, listing, stencil, source)?;
    let line = script_line(alloc, listing, name, bytes, stencil, &notes)?;
    Ok(line.into_bytes())
}

/// The object of a file in a line: with the code of all that is compiled, or with its scopes, and with what is said of both beside the
/// stencil. The text is the one that was compiled.
pub fn json_of_script(
    alloc: Global,
    listing: Listing,
    name: &str,
    text: &[u8],
    stencil: &MergedStencil,
) -> Result<Vec<u8>, AllocError>
    ensures { IfOk result (λ out. IsJson listing name.now (length text.now) (Some text.now) stencil.now out.items) }
{
    let source = KnownText::of(alloc, text)?;
    let line = json_by(alloc, listing, name, text.len(), &source, stencil)?;
    Ok(line)
}

/// The same of the code of an image of so many bytes, which has no source text.
pub(crate) fn json_of_image(
    alloc: Global,
    name: &str,
    bytes: usize,
    stencil: &MergedStencil,
) -> Result<Vec<u8>, AllocError>
    ensures { IfOk result (λ out. IsJson of.Code name.now bytes None stencil.now out.items) }
{
    let source = KnownText { text: None };
    let line = json_by(alloc, Listing::Code, name, bytes, &source, stencil)?;
    Ok(line)
}
