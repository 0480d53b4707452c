//! The other place that a refusal speaks of.

ghost use Rattle.std.specs.Prelude.{IfOk, IfSome};
ghost use Rattle.holzikra_places.specs.Places.{IsPlace};

use crate::refusal::Refused;
use crate::verdict::Spot;
use holzikra_places::Lines;
use holzikra_refusals::note_of;
use std::alloc::{AllocError, Global};

/// What is said of another place of the text.
#[derive(Clone, Copy)]
pub(crate) struct OtherPlace {
    pub(crate) spot: Spot,
    pub(crate) words: &'static str,
}

/// What is said of another place of a text that is refused, if something is.
pub(crate) fn other_place(
    alloc: Global,
    refused: Refused<'_>,
) -> Result<Option<OtherPlace>, AllocError>
    ensures { IfOk result (λ other. IfSome other
        (λ one. IsPlace refused.entry.text.now one.spot.offset one.spot.place.line one.spot.place.column)) }
{
    let text = refused.text;
    let Some(note) = note_of(alloc, refused.code, text, refused.reason.offset())? else {
        return Ok(None);
    };
    let offset = note.offset.min(text.len());
    let lines = Lines::of(alloc, text)?;
    let place = lines.place_of(text, offset);
    Ok(Some(OtherPlace {
        spot: Spot { offset, place },
        words: note.words,
    }))
}
