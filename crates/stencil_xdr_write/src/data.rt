//! The small parts of functions: extents, slots, bindings, scopes, notes, closed names and texts.

ghost use Rattle.std.specs.Prelude.{◌≡◌, ◌^◌, ◌<◌, OnOk};
ghost use Rattle.stencil_xdr_specs.specs.Image as image;
ghost use Rattle.stencil_xdr_specs.specs.Widths as widths;
ghost use Rattle.stencil_xdr_write.specs.Numbers as numbers;

use crate::part::{Part, hand_list};
use crate::sink::Sink;
use std::alloc::AllocError;
use stencil_data::{Binding, ClosedName, Extent, ScopeData, Slot, Text, TryNote};

impl Part for u32 {
    ghost items = { image.whole };

    ghost fits = { λ n. n < 2 ^ 32 };

    fn hand<S: Sink>(&self, sink: &mut S) -> Result<(), AllocError> {
        sink.number(4, *self as u64)
    }
}

impl Part for Extent {
    ghost items = { image.extent };

    ghost fits = { widths.ExtentFits };

    fn hand<S: Sink>(&self, sink: &mut S) -> Result<(), AllocError> {
        sink.number(4, self.start as u64)?;
        sink.number(4, self.end as u64)
    }
}

// The kind of a slot, and its place.
fn hand_place<S: Sink>(kind: u64, place: u32, sink: &mut S) -> Result<(), AllocError>
    ensures { OnOk result (S.takes sink.old (numbers.place_items kind place) sink.new) }
{
    sink.number(1, kind)?;
    sink.number(4, place as u64)
}

impl Part for Slot {
    ghost items = { image.slot_items };

    ghost fits = { widths.SlotFits };

    fn hand<S: Sink>(&self, sink: &mut S) -> Result<(), AllocError> {
        match *self {
            Slot::Global => sink.number(1, 0),
            Slot::Arg(place) => hand_place(1, place, sink),
            Slot::Frame(place) => hand_place(2, place, sink),
            Slot::Env(place) => hand_place(3, place, sink),
            Slot::Callee => sink.number(1, 4),
        }
    }
}

impl Part for Binding {
    ghost items = { image.binding_items };

    ghost fits = { λ b. widths.SlotFits b.slot };

    fn hand<S: Sink>(&self, sink: &mut S) -> Result<(), AllocError> {
        sink.atom(self.atom as u64)?;
        self.kind.hand(sink)?;
        self.slot.hand(sink)
    }
}

fn hand_parent<S: Sink>(parent: Option<u32>, sink: &mut S) -> Result<(), AllocError>
    ensures { OnOk result (S.takes sink.old (image.maybe image.whole parent) sink.new) }
{
    match parent {
        None => sink.number(1, 0),
        Some(number) => {
            sink.number(1, 1)?;
            sink.number(4, number as u64)
        }
    }
}

impl Part for ScopeData {
    ghost items = { image.scope_items };

    ghost fits = { widths.ScopeFits };

    fn hand<S: Sink>(&self, sink: &mut S) -> Result<(), AllocError> {
        self.kind.hand(sink)?;
        hand_parent(self.parent, sink)?;
        hand_list(&self.bindings, sink)?;
        self.env_slots.hand(sink)
    }
}

impl Part for TryNote {
    ghost items = { image.note_items };

    ghost fits = { widths.NoteFits };

    fn hand<S: Sink>(&self, sink: &mut S) -> Result<(), AllocError> {
        sink.number(8, self.start)?;
        sink.number(8, self.end)?;
        sink.number(4, self.depth as u64)
    }
}

impl Part for ClosedName {
    ghost items = { image.closed_items };

    ghost fits = { λ c. c.scope < 2 ^ 32 };

    fn hand<S: Sink>(&self, sink: &mut S) -> Result<(), AllocError> {
        sink.number(4, self.scope as u64)?;
        sink.atom(self.atom as u64)
    }
}

impl Part for u16 {
    ghost items = { numbers.unit_items };

    ghost fits = { λ n. n < 2 ^ 16 };

    fn hand<S: Sink>(&self, sink: &mut S) -> Result<(), AllocError> {
        sink.number(2, *self as u64)
    }
}

impl Part for Text {
    ghost items = { numbers.text_items };

    ghost fits = { widths.TextFits };

    fn hand<S: Sink>(&self, sink: &mut S) -> Result<(), AllocError> {
        hand_list(self.units(), sink)
    }
}
