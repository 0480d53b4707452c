//! Functions, records and whole stencils.

ghost use Rattle.std.specs.Prelude.{OnOk};
ghost use Rattle.stencil_xdr_specs.specs.Image as image;
ghost use Rattle.stencil_xdr_specs.specs.Widths as widths;
ghost use Rattle.stencil_xdr_write.specs.Numbers as numbers;
ghost use Rattle.stencil_xdr_write.specs.Whole as whole;

use crate::code::hand_code;
use crate::part::{Part, hand_each, hand_list};
use crate::sink::Sink;
use std::alloc::AllocError;
use stencil_data::{Entry, Extent, FuncKind, FunctionStencil, LazyRecord, MergedStencil};

fn hand_name<S: Sink>(name: Option<u32>, sink: &mut S) -> Result<(), AllocError>
    ensures { OnOk result (S.takes sink.old (image.maybe image.atom name) sink.new) }
{
    match name {
        None => sink.number(1, 0),
        Some(atom) => {
            sink.number(1, 1)?;
            sink.atom(atom as u64)
        }
    }
}

/// What a function and its record begin with.
fn hand_head<S: Sink>(
    extent: &Extent,
    kind: FuncKind,
    name: Option<u32>,
    sink: &mut S,
) -> Result<(), AllocError>
    ensures taken { OnOk result (S.takes sink.old (numbers.head_items extent.now kind name) sink.new) }
    ensures fit { OnOk result (widths.ExtentFits extent.now) }
{
    extent.hand(sink)?;
    kind.hand(sink)?;
    hand_name(name, sink)
}

impl Part for FunctionStencil {
    ghost items = { whole.function_items };

    ghost fits = { whole.FunctionHolds };

    fn hand<S: Sink>(&self, sink: &mut S) -> Result<(), AllocError> {
        hand_head(&self.extent, self.kind, self.name, sink)?;
        self.params.hand(sink)?;
        hand_list(&self.scopes, sink)?;
        hand_code(&self.code, sink)?;
        hand_list(&self.notes, sink)?;
        hand_list(&self.inner, sink)
    }
}

impl Part for LazyRecord {
    ghost items = { image.record_items };

    ghost fits = { widths.RecordFits };

    fn hand<S: Sink>(&self, sink: &mut S) -> Result<(), AllocError> {
        hand_head(&self.extent, self.kind, self.name, sink)?;
        hand_list(&self.inner, sink)?;
        hand_list(&self.closed, sink)
    }
}

impl Part for Entry {
    ghost items = { whole.entry_items };

    ghost fits = { whole.EntryHolds };

    fn hand<S: Sink>(&self, sink: &mut S) -> Result<(), AllocError> {
        match self {
            Entry::Lazy => sink.number(1, 0),
            Entry::Compiled(function) => {
                sink.number(1, 1)?;
                function.hand(sink)
            }
        }
    }
}

/// Hands all that stands after the texts of a stencil.
pub(crate) fn hand_stencil<S: Sink>(merged: &MergedStencil, sink: &mut S) -> Result<(), AllocError>
    ensures taken { OnOk result (S.takes sink.old (whole.stencil_items merged.now) sink.new) }
    ensures fit { OnOk result (numbers.PartsFit merged.now) }
{
    merged.top.hand(sink)?;
    hand_list(&merged.records, sink)?;
    hand_each(&merged.entries, sink)
}
