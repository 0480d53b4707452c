//! Images, written.

ghost use Rattle.std.specs.Prelude.{◌≡◌, ◌^◌, ◌-◌, ◌<◌, List, length, IfOk};
ghost use Rattle.stencil_data.specs.Named.{NamedMerged};
ghost use Rattle.stencil_data.specs.StandsFor.{MergedStandsFor};
ghost use Rattle.bytecode_buf.specs.Command.{Listed};
ghost use Rattle.bytecode_buf.specs.InRange.{InRange};
ghost use Rattle.stencil_xdr_specs.specs.Image.{IsImageOf};
ghost use Rattle.script_image.specs.Listed.{ShowsListed, listed_stencil};
ghost use Rattle.stencil_xdr_laws.specs.Pieces.{image_of};
ghost use Rattle.stencil_xdr_laws.specs.Written.{IsWrittenOf};
ghost use Rattle.stencil_xdr_write.specs.Numbers as numbers;

use crate::numbering::Numbering;
use crate::part::hand_list;
use crate::sink::Sink;
use crate::stencil::hand_stencil;
use crate::writer::Writer;
use std::alloc::{AllocError, Global};
use stencil_data::{MergedStencil, Text};

// `STN1`
const MAGIC: [u8; 4] = [83, 84, 78, 49];

/// The bytes of a stencil where the texts stand in this order, and atoms are written by these numbers.
fn write_by(
    alloc: Global,
    texts: &[Text],
    table: &[Option<u32>],
    merged: &MergedStencil,
) -> Result<Vec<u8>, AllocError>
    ensures { IfOk result (λ bytes. bytes.items ≡ numbers.bytes_with texts.now table.now merged.now) }
{
    let mut writer = Writer::new(alloc, table);
    writer.bytes(&MAGIC)?;
    hand_list(texts, &mut writer)?;
    hand_stencil(merged, &mut writer)?;
    Ok(writer.into_bytes())
}

/// The bytes that are written of what a stencil is listed as.
fn numbered_image(alloc: Global, merged: &MergedStencil) -> Result<Vec<u8>, AllocError>
    requires few { length merged.now.texts < 2 ^ 32 - 1 }
    ensures listed { IfOk result (λ bytes. bytes.items ≡ image_of (listed_stencil merged.now)) }
    ensures image { IfOk result (λ bytes. InRange merged.now → IsImageOf merged.now bytes.items) }
    ensures script { IfOk result (λ bytes. IsWrittenOf merged.now bytes.items) }
{
    let mut numbering = Numbering::new(alloc, &merged.texts)?;
    hand_stencil(merged, &mut numbering)?;
    let (texts, table) = numbering.into_numbers();
    write_by(alloc, &texts, &table, merged)
}

/// The image of the value that a stencil stands for; for a stencil in range it is the stencil's own, and for a small script whose
/// texts are small it is one that is read again.
///
/// An atom that is no text's names the empty text, and bytes after the last whole instruction of a code are left out.
/// It takes time linear in the stencil and the texts that it names.
pub fn write_image(alloc: Global, merged: &MergedStencil) -> Result<Vec<u8>, AllocError>
    requires few { length merged.now.texts < 2 ^ 32 - 1 }
    ensures value { IfOk result (λ bytes.
        (named : NamedMerged (List Listed)) → MergedStandsFor ShowsListed merged.now named → bytes.items ≡ image_of named) }
    ensures image { IfOk result (λ bytes. InRange merged.now → IsImageOf merged.now bytes.items) }
    ensures script { IfOk result (λ bytes. IsWrittenOf merged.now bytes.items) }
{
    numbered_image(alloc, merged)
}
