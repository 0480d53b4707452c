//! The images of the library `stencil`, and what it finds in them.

ghost use Rattle.std.specs.Prelude.{ℕ, List, IfOk};
ghost use Rattle.stencil_xdr_specs.specs.Image.{IsImageOf};
ghost use Rattle.holzikra_session.specs.Images.{IsSavedBy};
ghost use Rattle.holzikra.specs.Compiling.{IsShownFor};
ghost use Rattle.holzikra.specs.Images.{IsFound};
ghost use Rattle.holzikra.specs.Verdicts.{IsVerdict};

use crate::judge::reason_of;
use holzikra_session::{Saved, Verified};
use std::alloc::{AllocError, Global};
use stencil::{
    Answer, ImageFault, Soundness, Stencil, Wanted, compile, read_image, verify, write_image,
};

/// The image of a text by the library.
pub(crate) fn saved(alloc: Global, text: &[u8]) -> Result<Saved, AllocError>
    ensures { IfOk result (IsSavedBy IsVerdict IsShownFor text.now) }
{
    let answer = compile(alloc, text, Wanted::All)?;
    match answer {
        Answer::Script(stencil) => {
            let image = write_image(alloc, &stencil)?;
            Ok(Saved::Image(image))
        }
        Answer::Refused(why) => {
            let reason = reason_of(alloc, text, why)?;
            Ok(Saved::Refused(reason))
        }
    }
}

/// What the library finds of the code of a stencil.
fn verified_stencil(alloc: Global, stencil: &Stencil) -> Result<Verified, AllocError>
    ensures { IfOk result (λ found. (image : List ℕ) → IsImageOf stencil.now image → IsFound image found) }
{
    let soundness = verify(alloc, stencil)?;
    match soundness {
        Soundness::Sound { depth } => Ok(Verified::Sound {
            functions: stencil.records.len(),
            depth,
        }),
        Soundness::Unsound { script } => Ok(Verified::Unsound { script }),
    }
}

/// What the library finds in bytes that are taken as an image.
pub(crate) fn verified(alloc: Global, image: &[u8]) -> Result<Verified, AllocError>
    ensures { IfOk result (IsFound image.now) }
{
    match read_image(alloc, image) {
        Ok(stencil) => {
            let found = verified_stencil(alloc, &stencil)?;
            Ok(found)
        }
        Err(ImageFault::NoImage) => Ok(Verified::NoImage),
        Err(ImageFault::NoMemory) => Err(AllocError),
    }
}
