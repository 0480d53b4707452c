//! Images of merged stencils, read.
//!
//! It stands above the data of stencils and their code (stencil_data, bytecode_buf), above the definition of images
//! (stencil_xdr_specs) and above texts without equals (parser_atoms); whoever takes a file as an image calls it.
//!
//! The main contract: [`read_image`] answers the stencil in range whose numbers stand in the bytes, which stands for the same as
//! each stencil with this image, and refuses bytes exactly where they are the image of no stencil in range. It reads
//! each part from the beginning of the bytes that are
//! left, and takes no memory for items that are not there; then it tests ranges and the numbering of the texts.
#![tactic(auto)]

mod atoms;
mod code;
mod data;
mod fault;
mod list;
mod numbering;
mod numbers;
mod part;
mod range;
mod whole;

ghost use Rattle.std.specs.Prelude.{◌≡◌, IfOk, Err};
ghost use Rattle.stencil_data.specs.MergedView.{MergedView};
ghost use Rattle.stencil_xdr_specs.specs.Image.{IsImageOf};
ghost use Rattle.stencil_xdr_read.specs.ReadBack.{StandAlike, AreTextsInOrder};
ghost use Rattle.stencil_xdr_read.specs.declared.fault.ImageFault.TheVariants.{NoImage};

use crate::numbering::is_canonical;
use crate::whole::read_whole;
pub use fault::ImageFault;
use std::alloc::Global;
use stencil_data::MergedStencil;

/// The stencil of an image: of those that have this image the one whose texts stand in the order of the bytes. It stands for the
/// same as each of the others, so for what was written. `NoImage` comes exactly where the bytes are the image of no stencil in range.
///
/// It takes time and memory linear in the bytes.
pub fn read_image(alloc: Global, bytes: &[u8]) -> Result<MergedStencil, ImageFault>
    ensures image { IfOk result (λ stencil. IsImageOf stencil bytes.now) }
    ensures texts { IfOk result (λ stencil. AreTextsInOrder stencil) }
    ensures value { IfOk result (λ stencil. (other : MergedView) → IsImageOf other bytes.now → StandAlike other stencil) }
    ensures none { result ≡ Err NoImage → (stencil : MergedView) → IsImageOf stencil bytes.now → ⊥ }
{
    let stencil = read_whole(alloc, bytes)?;
    let canonical = is_canonical(alloc, &stencil)?;
    if canonical {
        Ok(stencil)
    } else {
        Err(ImageFault::NoImage)
    }
}
