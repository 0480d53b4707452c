//! Lists of parts.

ghost use Rattle.std.specs.Prelude.{◌≡◌};
ghost use Rattle.std.specs.List.{flat_map};
ghost use Rattle.stencil_xdr_read.specs.Reading as part;
ghost use Rattle.stencil_xdr_read.specs.Reading.{Reads};
ghost use Rattle.stencil_xdr_read.specs.Unique as unique_parts;

use crate::fault::ImageFault;
use crate::part::{Part, Reader};
use std::alloc::Global;
use std::marker::Model;

/// A list whose count stands before its items in an image: contracts see its items.
#[derive(Drop)]
pub(crate) struct List<P> {
    items: Vec<P>,
}

impl<P> Model for List<P> {
    ghost use Rattle.std.specs.Prelude as std_lists;

    ghost Value = { std_lists.List P };

    ghost view = { λ list. list.items.items };
}

impl<P> List<P> {
    /// The items.
    pub fn into_items(self) -> Vec<P>
        ensures { result.items ≡ self }
    {
        let List { items } = self;
        items
    }
}

/// Reads n items from the beginning of the bytes that are left.
pub(crate) fn read_items<P: Part>(
    alloc: Global,
    reader: &mut Reader<'_>,
    count: usize,
) -> Result<List<P>, ImageFault>
    ensures { Reads (flat_map P.bytes) (part.AreItems count P.fits) reader.old reader.new result }
{
    let mut items = Vec::new(alloc);
    for _ in 0..count {
        let item = P::read(alloc, reader)?;
        items.push(item)?;
    }
    Ok(List { items })
}

impl<P: Part> Part for List<P> {
    ghost bytes = { part.list_bytes P.bytes };

    ghost fits = { part.FitList P.fits };

    ghost unique = { unique_parts.unique_lists P.bytes P.fits P.unique };

    fn read(alloc: Global, reader: &mut Reader<'_>) -> Result<List<P>, ImageFault> {
        let count = u32::read(alloc, reader)?;
        let items = read_items(alloc, reader, count as usize)?;
        Ok(items)
    }
}
