//! What a part of a stencil is: its items, and how they are handed to a sink.

ghost use Rattle.std.specs.Prelude.{List, OnOk, All};
ghost use Rattle.std.specs.List.{flat_map};
ghost use Rattle.stencil_xdr_specs.specs.Image as image;
ghost use Rattle.stencil_xdr_specs.specs.Image.{Item};

use crate::sink::Sink;
use std::alloc::AllocError;

/// A part of a stencil. What its numbers fit is learned on the way, where they are read.
pub(crate) trait Part {
    ghost items: { Self → List Item };

    ghost fits: { Self → Type 0 };

    /// Hands the part's items to a sink.
    fn hand<S: Sink>(&self, sink: &mut S) -> Result<(), AllocError>
        ensures taken { OnOk result (S.takes sink.old (items self.now) sink.new) }
        ensures fit { OnOk result (fits self.now) };
}

/// Hands the items of parts to a sink, one part after another.
pub(crate) fn hand_each<P: Part, S: Sink>(parts: &[P], sink: &mut S) -> Result<(), AllocError>
    ensures taken { OnOk result (S.takes sink.old (flat_map P.items parts.now) sink.new) }
    ensures fit { OnOk result (All P.fits parts.now) }
{
    for part in parts {
        part.hand(sink)?;
    }
    Ok(())
}

/// The same, after their count.
pub(crate) fn hand_list<P: Part, S: Sink>(parts: &[P], sink: &mut S) -> Result<(), AllocError>
    ensures taken { OnOk result (S.takes sink.old (image.list P.items parts.now) sink.new) }
    ensures fit { OnOk result (All P.fits parts.now) }
{
    sink.number(4, parts.len() as u64)?;
    hand_each(parts, sink)
}
