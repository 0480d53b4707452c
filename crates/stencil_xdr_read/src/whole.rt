//! Whole stencils, read.

ghost use Rattle.std.specs.Prelude.{◌≡◌};
ghost use Rattle.stencil_xdr_read.specs.Reading.{Reads};
ghost use Rattle.stencil_xdr_read.specs.Whole as whole;
ghost use Rattle.stencil_xdr_read.specs.UniqueWhole as unique_whole;

use crate::fault::ImageFault;
use crate::list::{List, read_items};
use crate::part::{Part, Reader};
use std::alloc::Global;
use stencil_data::{Entry, FunctionStencil, LazyRecord, MergedStencil, Text};

/// The word with which an image begins.
#[derive(Drop)]
struct Magic {
    word: u32,
}

// `STN1`, low byte first
const WORD: u32 = 827_216_979;

impl Part for Magic {
    ghost bytes = { whole.magic_bytes };

    ghost fits = { whole.IsMagic };

    ghost unique = { unique_whole.unique_magic };

    fn read(alloc: Global, reader: &mut Reader<'_>) -> Result<Magic, ImageFault> {
        let word = u32::read(alloc, reader)?;
        if word == WORD {
            Ok(Magic { word })
        } else {
            Err(ImageFault::NoImage)
        }
    }
}

/// Reads a stencil from the beginning of the bytes that are left.
fn read_stencil(alloc: Global, reader: &mut Reader<'_>) -> Result<MergedStencil, ImageFault>
    ensures { Reads whole.stencil_bytes whole.FitStencil reader.old reader.new result }
{
    let (_magic, (texts, (top, records))) = <(
        Magic,
        (List<Text>, (FunctionStencil, List<LazyRecord>)),
    )>::read(alloc, reader)?;
    let texts = texts.into_items();
    let records = records.into_items();
    let entries = read_items::<Entry>(alloc, reader, records.len())?;
    let entries = entries.into_items();
    Ok(MergedStencil {
        texts,
        top,
        records,
        entries,
    })
}

/// The stencil whose parts all the bytes are.
pub(crate) fn read_whole(alloc: Global, bytes: &[u8]) -> Result<MergedStencil, ImageFault>
    ensures { whole.ReadsWhole bytes.now result }
{
    let mut reader = Reader::new(bytes);
    let stencil = read_stencil(alloc, &mut reader)?;
    if reader.is_done() {
        Ok(stencil)
    } else {
        Err(ImageFault::NoImage)
    }
}
